//! What statements declare of virtual modifiers.
ghost use Rattle.std.specs.Prelude.{◌≡◌, ◌==◌, ◌++◌, [], IfErr, IfOk, None, OnOk, Some, map, nat_eq, unwrap_or, if◌then◌else◌};
ghost use Rattle.std.specs.List.{flat_map, list_any};
ghost use Rattle.std.specs.Option.{option_or, option_map};
ghost use Rattle.std.proofs.Common.{◌∙◌, ap, eqb-true, sym};
ghost use Rattle.kx_lex.specs.declared.fault.Fault.TheVariants.{Memory};
ghost use Rattle.kx_merge.specs.Offers.{with_name};
ghost use Rattle.kx_merge.specs.Records.{AreOffered};
ghost use Rattle.kx_merge.specs.Single.{single_form};
ghost use Rattle.kx_tree.specs.declared.tree.Mode.{Mode as ModeValue};
ghost use Rattle.kx_virtual_mods.specs.Declarations.{declaration_faults, declarations_in, declared_faults, given_by, given_in, last_mask, mask_offer, mask_offers, name_faults, named_by, named_in, numbers_of, stated_faults, stated_offers};
ghost use Rattle.kx_virtual_mods.specs.Counted.{with_names};
ghost use Rattle.kx_virtual_mods.specs.Masks.{mask_set, virtual_number};
ghost use Rattle.kx_merge.specs.Reports.{Reports, ReportsOrRunsOut};

use crate::counted::Naming;
use crate::masks::real_mask_of;
use crate::names::Names;
use crate::real_words::real_mask;
use kx_lex::{At, Fault, Name};
use kx_merge::{Placed, Single, SingleValue};
use kx_parse::{Declaration, Expression, Statement};
use std::alloc::Global;

/// The names of virtual modifiers.
pub(crate) struct ModifierNaming;

fn declarations_in(statement: &Statement) -> &[Declaration]
    ensures { result.now ≡ declarations_in statement.now }
{
    match statement {
        Statement::VirtualModifiers(declarations) => declarations.as_slice(),
        _ => &[],
    }
}

/// Adds the virtual modifier that a declaration names.
fn add_one(alloc: Global, names: &mut Names, declaration: &Declaration) -> Result<(), Fault>
    ensures added { OnOk result (names.new ≡ with_names names.old (named_by declaration.now)) }
    ensures err { IfErr result (λ e. e ≡ Memory) }
{
    let word = declaration.word.bytes.as_slice();
    match real_mask(word) {
        Some(_) => Ok(()),
        None => names.add(alloc, word),
    }
}

/// Adds the virtual modifiers that declarations name.
fn add_declared(alloc: Global, names: &mut Names, declarations: &[Declaration]) -> Result<(), Fault>
    ensures added { OnOk result (names.new
        ≡ with_names names.old (flat_map named_by declarations.now)) }
    ensures err { IfErr result (λ e. e ≡ Memory) }
{
    'declarations: for declaration in declarations {
        add_one(alloc, names, declaration)?;
    }
    Ok(())
}

impl Naming for ModifierNaming {
    ghost names = { named_in };

    fn add(alloc: Global, others: &mut Names, statement: &Statement) -> Result<(), Fault>
        ensures added { OnOk result (others.new ≡ with_names others.old (named_in statement.now)) }
        ensures err { IfErr result (λ e. e ≡ Memory) }
    {
        add_declared(alloc, others, declarations_in(statement))
    }
}

fn check_name(file: u32, word: &Name) -> Result<(), Fault>
    ensures faults { Reports result (name_faults file word.now) }
{
    match real_mask(word.bytes.as_slice()) {
        None => Ok(()),
        Some(_) => Err(Fault::BadValue(At {
            file,
            span: word.span,
        })),
    }
}

/// The mask that a declaration writes.
fn read_mask(names: &Names, file: u32, mask: &Option<Expression>) -> Result<Option<u8>, Fault>
    ensures value { IfOk result (λ m. m ≡ option_map (mask_set []) mask.now) }
    ensures faults { Reports result (declared_faults file names.now mask.now) }
{
    match mask {
        None => Ok(None),
        Some(expression) => {
            let mods = real_mask_of(names, file, expression)?;
            Ok(Some(mods.mask()))
        }
    }
}

/// What a declaration gives, after others.
fn read_declaration(
    names: &Names,
    file: u32,
    declaration: &Declaration,
    given: &mut Vec<(usize, Option<u8>)>,
) -> Result<(), Fault>
    ensures value { OnOk result (given.new.items
        ≡ given.old.items ++ given_by (virtual_number names.now declaration.now.word.bytes)
        declaration.now.mask) }
    ensures faults { ReportsOrRunsOut result (declaration_faults file names.now declaration.now) }
{
    check_name(file, &declaration.word)?;
    let mask = read_mask(names, file, &declaration.mask)?;
    match names.number_of(declaration.word.bytes.as_slice()) {
        None => Ok(()),
        Some(number) => {
            given.push((number, mask))?;
            Ok(())
        }
    }
}

/// What declarations give, with the numbers of the virtual modifiers, in order.
fn read_declarations(
    alloc: Global,
    names: &Names,
    file: u32,
    declarations: &[Declaration],
) -> Result<Vec<(usize, Option<u8>)>, Fault>
    ensures value { IfOk result (λ given. given.items ≡ given_in names.now declarations.now) }
    ensures faults { ReportsOrRunsOut result
        (flat_map (declaration_faults file names.now) declarations.now) }
{
    let mut given = Vec::new(alloc);
    'declarations: for declaration in declarations {
        read_declaration(names, file, declaration, &mut given)?;
    }
    Ok(given)
}

fn has_number(numbers: &[usize], number: usize) -> bool
    ensures { result ≡ list_any (nat_eq number) numbers.now }
{
    numbers.iter().any(|other| number == *other)
}

/// Adds a number after others, where it isn't among them.
fn add_number(numbers: &mut Vec<usize>, number: usize) -> Result<(), Fault>
    ensures added { OnOk result (numbers.new.items ≡ with_name nat_eq numbers.old.items number) }
    ensures err { IfErr result (λ e. e ≡ Memory) }
{
    if has_number(numbers.as_slice(), number) {
        return Ok(());
    }
    numbers.push(number)?;
    Ok(())
}

/// The numbers in what declarations give, each once.
fn numbers_of(alloc: Global, given: &[(usize, Option<u8>)]) -> Result<Vec<usize>, Fault>
    ensures value { IfOk result (λ numbers. numbers.items ≡ numbers_of given.now) }
    ensures err { IfErr result (λ e. e ≡ Memory) }
{
    let mut numbers = Vec::new(alloc);
    'given: for one in given {
        add_number(&mut numbers, one.0)?;
    }
    Ok(numbers)
}

/// The mask of a number once a later declaration is read.
fn later_mask(mask: Option<u8>, number: usize, one: (usize, Option<u8>)) -> Option<u8>
    ensures { result ≡ option_or (if number == one.0 then one.1 else None) mask }
{
    if number == one.0 {
        one.1.or(mask)
    } else {
        mask
    }
}

/// The mask that is written last for a number.
fn last_mask(given: &[(usize, Option<u8>)], number: usize) -> Option<u8>
    ensures { result ≡ last_mask given.now number }
{
    let mut mask = None;
    'given: for one in given {
        mask = later_mask(mask, number, *one);
    }
    mask
}

/// What declarations give the virtual modifiers of some numbers.
fn records_for(
    alloc: Global,
    given: &[(usize, Option<u8>)],
    numbers: &[usize],
) -> Result<Vec<(usize, Single<u8>)>, Fault>
    ensures records { (mode : ModeValue) → IfOk result (λ records. AreOffered mode single_form
        records.items (map (mask_offer mode given.now) numbers.now)) }
    ensures err { IfErr result (λ e. e ≡ Memory) }
{
    let mut records = Vec::new(alloc);
    'numbers: for number in numbers {
        let value = last_mask(given, *number);
        records.push((*number, Single { value }))?;
    }
    Ok(records)
}

/// What declarations give each virtual modifier.
fn records_of(
    alloc: Global,
    given: &[(usize, Option<u8>)],
) -> Result<Vec<(usize, Single<u8>)>, Fault>
    ensures records { (mode : ModeValue) → IfOk result (λ records. AreOffered mode single_form
        records.items (mask_offers mode given.now)) }
    ensures err { IfErr result (λ e. e ≡ Memory) }
{
    let numbers = numbers_of(alloc, given)?;
    records_for(alloc, given, numbers.as_slice())
}

/// The mask of real modifiers that a statement declares for a virtual modifier, as bits.
impl SingleValue<Names> for u8 {
    type Key = usize;

    ghost offers = { λ names place stated. stated_offers names stated };

    ghost faults = { λ names place stated. stated_faults place.file names stated };

    ghost moved = { λ n number. Some number };

    fn read(
        alloc: Global,
        names: &Names,
        placed: &Placed,
    ) -> Result<Vec<(usize, Single<u8>)>, Fault> {
        let declarations = declarations_in(&placed.stated.statement);
        let given = read_declarations(alloc, names, placed.place.file, declarations)?;
        records_of(alloc, given.as_slice())
    }

    fn try_clone(&self, _alloc: Global) -> Result<u8, Fault> {
        Ok(*self)
    }

    fn key_in(key: &usize, _group: Option<u8>) -> Option<usize> {
        Some(*key)
    }

    ghost apart = { λ n j k to one two. ap (λ key. unwrap_or key 0) (one ∙ sym two) };

    ghost same = { λ j k e. eqb-true j k e };
}
