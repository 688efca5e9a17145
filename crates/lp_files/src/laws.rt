// Laws of objects that are read in order.
ghost use Rattle.std.specs.Prelude.{ℕ, List};
ghost use Rattle.lp_code.specs.declared.object.Object.{Object};
ghost use Rattle.lp_files.specs.Ordered.{AreInOrder};
ghost use Rattle.lp_files.specs.Used.{AreUsedOnce, BeginsNamed, HaveUsed};

/// Objects in order are the root's and all that they use, each once and each used by one before it.
pub fn objects_in_order_are_all_that_are_used()
    ensures first { (root : List ℕ) (os : List Object) → AreInOrder root os → BeginsNamed root os }
    ensures used { (root : List ℕ) (os : List Object) → AreInOrder root os → HaveUsed os }
    ensures once { (root : List ℕ) (os : List Object) → AreInOrder root os → AreUsedOnce os }
{}
