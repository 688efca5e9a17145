// The kinds and constants that code may name: those of the language, and those of an image or object.

ghost use Rattle.std.specs.Prelude.{◌≡◌, ◌<◌, [], IfOk, map, option_map};
ghost use Rattle.lp_calculus.specs.Types.{con, tys};
ghost use Rattle.lp_standard.specs.Kinds.{number};
ghost use Rattle.lp_standard.specs.Schemes.{standard_schemes, entry, part_type, shape_type, shape_scheme};
ghost use Rattle.lp_standard.specs.declared.shape.Shape.TheVariants.{Function};
ghost use Rattle.lp_verify.specs.inner.Language.{IsPutIn, IsSchemePut, HasLanguage};
ghost use Rattle.lp_code.specs.Naming.{scheme_in, tables_of, image_tables, object_tables, image_arity, object_arity};
ghost use Rattle.lp_verify.specs.Scheme.{tables_in, schemes_in, image_scheme, object_scheme, type_vars_in, type_vars_of};

use lp_base::Memory;
use lp_code::{Image, ImageConstant, ImageKind, Object, ObjectConstant, ObjectKind};
use lp_standard::{Constant, FIRST_CONSTANT, FIRST_KIND, Kind, Part, Shape};
use lp_term::{Bank, TypeId, put_arrow, put_constructor, put_type_variable};
use std::alloc::Global;

// A declared type, with the number of its type variables.
#[derive(Clone, Copy)]
pub(crate) struct Scheme {
    pub(crate) type_vars: u8,
    pub(crate) body: TypeId,
}

#[derive(Drop)]
pub(crate) struct Tables<'a> {
    // The bank of the schemes below.
    bank: &'a Bank,
    arities: Vec<u8>,
    declared: Vec<Scheme>,
    // The bank of the schemes of the language.
    language_bank: Bank,
    language: Vec<Option<Scheme>>,
}

// A kind without arguments.
fn put_plain(bank: &mut Bank, kind: Kind) -> Result<TypeId, Memory>
    ensures { IfOk result (IsPutIn bank.old bank.new (con (number kind) (tys []))) }
{
    let made = put_constructor(bank, kind.number(), &[])?;
    Ok(made)
}

fn put_part(bank: &mut Bank, part: Part) -> Result<TypeId, Memory>
    ensures { IfOk result (IsPutIn bank.old bank.new (part_type part)) }
{
    match part {
        Part::Proposition => put_plain(bank, Kind::Proposition),
        Part::Integer => put_plain(bank, Kind::Integer),
        Part::String => put_plain(bank, Kind::String),
        Part::Any => {
            let made = put_type_variable(bank, 0)?;
            Ok(made)
        }
        Part::ListOfAny => {
            let item = put_type_variable(bank, 0)?;
            let list = put_constructor(bank, Kind::List.number(), &[item])?;
            Ok(list)
        }
        Part::Predicate => {
            let from = put_type_variable(bank, 0)?;
            let to = put_constructor(bank, Kind::Proposition.number(), &[])?;
            let made = put_arrow(bank, from, to)?;
            Ok(made)
        }
    }
}

fn put_between(bank: &mut Bank, from: Part, to: Part) -> Result<TypeId, Memory>
    ensures { IfOk result (IsPutIn bank.old bank.new (shape_type (Function from to))) }
{
    let from = put_part(bank, from)?;
    let to = put_part(bank, to)?;
    let made = put_arrow(bank, from, to)?;
    Ok(made)
}

fn put_shape(bank: &mut Bank, shape: Shape) -> Result<TypeId, Memory>
    ensures { IfOk result (IsPutIn bank.old bank.new (shape_type shape)) }
{
    match shape {
        Shape::Value(part) => put_part(bank, part),
        Shape::Function(from, to) => put_between(bank, from, to),
        Shape::Operation(left, right, to) => {
            let left = put_part(bank, left)?;
            let to = put_between(bank, right, to)?;
            let made = put_arrow(bank, left, to)?;
            Ok(made)
        }
    }
}

// The scheme of this type.
fn put_scheme(bank: &mut Bank, shape: Option<Shape>) -> Result<Option<Scheme>, Memory>
    ensures { IfOk result (IsSchemePut bank.old bank.new (option_map shape_scheme shape)) }
{
    match shape {
        Some(shape) => {
            let body = put_shape(bank, shape)?;
            Ok(Some(Scheme {
                type_vars: shape.type_vars(),
                body,
            }))
        }
        None => Ok(None),
    }
}

// The scheme of the language's constant of this number.
fn put_language(bank: &mut Bank, number: u32) -> Result<Option<Scheme>, Memory>
    ensures { IfOk result (IsSchemePut bank.old bank.new (entry standard_schemes number)) }
{
    match Constant::from_number(number) {
        Some(constant) => {
            let put = put_scheme(bank, constant.shape())?;
            Ok(put)
        }
        None => Ok(None),
    }
}

// How many type variables a type has, where there is one.
fn shape_type_vars(shape: Option<Shape>) -> Option<u8>
    ensures { result ≡ type_vars_in (option_map shape_scheme shape) }
{
    match shape {
        Some(shape) => Some(shape.type_vars()),
        None => None,
    }
}

// How many type variables the language's constant of this number has.
fn language_type_vars(number: u32) -> Option<u8>
    ensures { result ≡ type_vars_in (entry standard_schemes number) }
{
    match Constant::from_number(number) {
        Some(constant) => shape_type_vars(constant.shape()),
        None => None,
    }
}

fn image_arities(alloc: Global, kinds: &Vec<ImageKind>) -> Result<Vec<u8>, Memory>
    ensures { IfOk result (λ arities. arities.items ≡ map image_arity kinds.now.items) }
{
    let arities = kinds.iter().map(|kind| kind.arity).collect(alloc)?;
    Ok(arities)
}

fn image_schemes(alloc: Global, constants: &Vec<ImageConstant>) -> Result<Vec<Scheme>, Memory>
    ensures { IfOk result (λ schemes. schemes.items ≡ map image_scheme constants.now.items) }
{
    let schemes = constants
        .iter()
        .map(|constant| Scheme {
            type_vars: constant.type_vars,
            body: constant.scheme,
        })
        .collect(alloc)?;
    Ok(schemes)
}

fn object_arities(alloc: Global, kinds: &Vec<ObjectKind>) -> Result<Vec<u8>, Memory>
    ensures { IfOk result (λ arities. arities.items ≡ map object_arity kinds.now.items) }
{
    let arities = kinds.iter().map(|kind| kind.arity).collect(alloc)?;
    Ok(arities)
}

fn object_schemes(alloc: Global, constants: &Vec<ObjectConstant>) -> Result<Vec<Scheme>, Memory>
    ensures { IfOk result (λ schemes. schemes.items ≡ map object_scheme constants.now.items) }
{
    let schemes = constants
        .iter()
        .map(|constant| Scheme {
            type_vars: constant.type_vars,
            body: constant.scheme,
        })
        .collect(alloc)?;
    Ok(schemes)
}

impl<'a> Tables<'a> {
    fn new(
        alloc: Global,
        bank: &'a Bank,
        arities: Vec<u8>,
        declared: Vec<Scheme>,
    ) -> Result<Tables<'a>, Memory>
        ensures tables { IfOk result (λ tables. tables_in tables ≡ tables_of arities.items (schemes_in bank.now declared.items)) }
        ensures language { IfOk result HasLanguage }
    {
        let mut language_bank = Bank::new(alloc);
        let mut language = Vec::new(alloc);
        for number in 0..FIRST_CONSTANT {
            let scheme = put_language(&mut language_bank, number)?;
            language.push(scheme)?;
        }
        Ok(Tables {
            bank,
            arities,
            declared,
            language_bank,
            language,
        })
    }

    pub(crate) fn of_image(alloc: Global, image: &'a Image) -> Result<Tables<'a>, Memory>
        ensures tables { IfOk result (λ tables. tables_in tables ≡ image_tables image.now) }
        ensures language { IfOk result HasLanguage }
    {
        let arities = image_arities(alloc, &image.kinds)?;
        let declared = image_schemes(alloc, &image.constants)?;
        Tables::new(alloc, &image.bank, arities, declared)
    }

    pub(crate) fn of_object(alloc: Global, object: &'a Object) -> Result<Tables<'a>, Memory>
        ensures tables { IfOk result (λ tables. tables_in tables ≡ object_tables object.now) }
        ensures language { IfOk result HasLanguage }
    {
        let arities = object_arities(alloc, &object.kinds)?;
        let declared = object_schemes(alloc, &object.constants)?;
        Tables::new(alloc, &object.bank, arities, declared)
    }

    // How many types the kind takes, where there is one of this number.
    pub(crate) fn arity(&self, kind: u32) -> Option<u8>
        ensures { result ≡ (tables_in self.now).kinds kind }
    {
        if kind < FIRST_KIND {
            return match Kind::from_number(kind) {
                Some(kind) => Some(kind.arity()),
                None => None,
            };
        }
        self.arities.get((kind - FIRST_KIND) as usize).copied()
    }

    // How many type variables the constant of this number has, where there is one.
    pub(crate) fn type_vars(&self, constant: u32) -> Option<u8>
        ensures { result ≡ type_vars_of (tables_in self.now) constant }
    {
        if constant < FIRST_CONSTANT {
            return language_type_vars(constant);
        }
        match self.declared.get((constant - FIRST_CONSTANT) as usize) {
            Some(scheme) => Some(scheme.type_vars),
            None => None,
        }
    }

    // The type of the language's constant of this number, where there is one, and the bank in which it stands.
    fn language_scheme(&self, constant: u32) -> Option<(&Bank, Scheme)>
        ensures { HasLanguage self.now → constant < 32 → option_map (λ p. scheme_in p.0.now p.1.type_vars p.1.body.0) result ≡ entry standard_schemes constant }
    {
        match self.language.get(constant as usize).copied() {
            Some(Some(scheme)) => Some((&self.language_bank, scheme)),
            Some(None) => None,
            None => None,
        }
    }

    // The declared type of the constant of this number, where there is one, and the bank in which it stands.
    pub(crate) fn scheme(&self, constant: u32) -> Option<(&Bank, Scheme)>
        ensures { HasLanguage self.now → option_map (λ p. scheme_in p.0.now p.1.type_vars p.1.body.0) result ≡ (tables_in self.now).constants constant }
    {
        if constant < FIRST_CONSTANT {
            return self.language_scheme(constant);
        }
        match self.declared.get((constant - FIRST_CONSTANT) as usize) {
            Some(scheme) => Some((self.bank, *scheme)),
            None => None,
        }
    }
}
