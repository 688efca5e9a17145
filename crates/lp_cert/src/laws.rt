//! What follows from a certificate.
ghost use Rattle.lp_model.specs.Answers.{Query, IsProvable};
ghost use Rattle.lp_cert.specs.Certified.{Ground, Certificate, Certifies};

/// The instance that a certificate names, and proves, is a provable one.
pub fn certified_instances_are_provable()
    ensures { (g : Ground) (q : Query) (c : Certificate) → Certifies g q c → IsProvable g.declared g.clauses q c.instance }
{}
