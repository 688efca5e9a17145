// Numbers and names lead back to their constants.

use lp_standard::{Constant, FIRST_CONSTANT, Fixity, Kind, Part, Shape};

fn is_constant(number: u32, name: &[u8]) -> bool {
    let Some(constant) = Constant::from_number(number) else {
        return false;
    };
    constant.number() == number
        && constant.name() == name
        && Constant::from_name(name) == Some(constant)
}

fn is_reserved(number: u32, name: &[u8]) -> bool {
    let Some(constant) = Constant::from_number(number) else {
        return false;
    };
    constant.name() == name && Constant::from_name(name) == None
}

fn is_kind(number: u32, name: &[u8], arity: u8) -> bool {
    let Some(kind) = Kind::from_number(number) else {
        return false;
    };
    kind.number() == number && kind.arity() == arity && Kind::from_name(name) == Some(kind)
}

#[test]
fn the_tables_agree(rt: HostRuntime) {
    assert!(&rt;
        is_constant(0, b",") && is_constant(12, b"=<") && is_constant(24, b"not"),
        "constants"
    );
    assert!(&rt; is_reserved(25, b"print"), "reserved");
    assert!(&rt; Constant::from_number(FIRST_CONSTANT) == None, "declared");
    assert!(&rt; is_kind(0, b"o", 0) && is_kind(3, b"list", 1), "kinds");
    assert!(&rt;
        Constant::Cons.fixity() == Some((Fixity::Infixr, 140)),
        "fixity"
    );
    assert!(&rt;
        Constant::Size.shape() == Some(Shape::Function(Part::String, Part::Integer)),
        "shape"
    );
}
