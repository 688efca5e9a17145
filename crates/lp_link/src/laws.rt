//! What records denote that are put together copy by copy.
ghost use Rattle.std.specs.Prelude.{◌≡◌, ◌≤◌, List, [], Some, length};
ghost use Rattle.lp_lemmas.specs.Each.{EachOf};
ghost use Rattle.lp_model.specs.Flat.{Clause as FlatClause};
ghost use Rattle.lp_code.specs.declared.record.Record.{Record as Rec};
ghost use Rattle.lp_code.specs.Symbolic.{Tables};
ghost use Rattle.lp_code.specs.Denote.{denote};
ghost use Rattle.lp_link.specs.Linked.{Copy, AreDenoted};
ghost use Rattle.lp_link.specs.Names.{HasEachOnce, hidden_kind_rows, hidden_constant_rows, numbered, of_copies};
ghost use Rattle.lp_link.specs.Put.{ArePut};

/// Where each copy's records denote clauses over its own tables, the records of all copies, one copy behind the other and with their numbers in the image,
/// denote these clauses, with these numbers, in the order of the copies.
pub fn copies_denote()
    ensures { (u : Tables) (cs : List Copy) (rs : List Rec) (ds : List FlatClause) → ArePut u 0 cs rs → AreDenoted 0 cs ds → denote u rs ≡ Some ds }
{}

/// Where no object has a name twice, no hidden number is above the number of the copies, of which an image has no more than 4,096: 16 bits hold it.
pub fn hidden_numbers_fit()
    ensures kinds { (copies : List Copy) → EachOf (λ c. HasEachOnce c.object) copies → EachOf (λ row. row.1.0 ≤ length copies) (numbered [] (of_copies (λ c. hidden_kind_rows c.object) copies)) }
    ensures constants { (copies : List Copy) → EachOf (λ c. HasEachOnce c.object) copies → EachOf (λ row. row.1.0 ≤ length copies) (numbered [] (of_copies (λ c. hidden_constant_rows c.object) copies)) }
{}
