//! The inputs of `main`, read from words (docs/LANGUAGE.md, "Inputs").

ghost use Rattle.std.specs.Prelude.{◌≡◌, ℕ, get_or, ◌<◌, ◌-◌, ◌^◌, [], min, map, pos, neg_ℤ};
ghost use Rattle.std.specs.Prelude.{length, slice_get};
ghost use Rattle.std.specs.Prelude.{None, Some, IfOk, IfErr, IfSome, OnOk};
ghost use Rattle.std.specs.Prelude.{option_map, option_and_then};
ghost use Rattle.std.specs.List.{AllPass};
ghost use Rattle.std.specs.Char.{is_ascii_digit};
ghost use Rattle.id_text.specs.Bytes.{number_of as spelled_by};
ghost use Rattle.id_table.specs.Rows.{at};
ghost use Rattle.id_check.specs.Programs.{rows};
ghost use Rattle.id_source.specs.Sources.{AreInputs};
ghost use Rattle.id_source.specs.Inputs.{AreInputsOf, AreRefusedInputs, IsCauseOf, are_digits, cut, digits_number};
ghost use Rattle.id_source.specs.Inputs.{number_of, number_spelled, said, truth_spelled, value_spelled, wanted};
ghost use Rattle.id_source.specs.Inputs.{wanted_of, whole_value};
ghost use Rattle.id_source.specs.Reading.{AreGiven, AreSaid, IsFirstLack, cause_so, cut_so, said_so, values_so};

use crate::nodes::node_of;
use crate::params::main_params;
use id_check::Checked;
use id_table::Node;
use id_text::Identifier;
use id_value::{Constant, Kind, Sequence};
use std::alloc::{AllocError, AllocFailed, Global};

/// How far below 0 the numbers go; those above 0 end one earlier.
const LIMIT: u64 = 0x8000_0000_0000_0000;

/// The values of `main`'s parameters, in their order.
#[derive(Drop)]
pub struct Inputs {
    pub values: Sequence<Constant>,
}

/// The name and kind of a parameter of `main`.
#[derive(Drop)]
pub struct Wanted {
    pub name: Identifier,
    pub kind: Kind,
}

/// Why words are no inputs. A word is told by its number among them, a parameter by its number, both from 0.
#[derive(Clone, Copy)]
pub enum InputError {
    /// A parameter of `main` without an input.
    MissingInput { param: usize },
    /// A word without `=`, or one whose name is no parameter's: `n`
    UnknownInput { word: usize },
    /// A second word for one parameter.
    RepeatedInput { word: usize },
    /// A value that is none of the parameter's kind: `n==1`
    BadInput { word: usize },
    /// A growth was refused.
    Memory,
}

/// The inputs that words `NAME=VALUE` give the parameters of `main`: a number is an optional `-` and one or more
/// digits, a truth value `true` or `false`.
///
/// The words are refused from left to right, each with `UnknownInput`, `RepeatedInput` or `BadInput`, and then the
/// first parameter without an input with `MissingInput`. `Memory` where a growth was refused. Takes memory for
/// each parameter and none for the words, and time for each byte of a word and for its name at each parameter.
pub fn read_inputs(alloc: Global, checked: &Checked, words: &[&str]) -> Result<Inputs, InputError>
    ensures inputs { IfOk result (λ i. AreInputsOf checked.now (map (λ w. w.now) words.now) i.values) }
    ensures own { IfOk result (λ i. AreInputs checked.now i.values) }
    ensures refused { IfErr result (AreRefusedInputs checked.now (map (λ w. w.now) words.now)) }
{
    let params = all_wanted(alloc, checked)?;
    let values = inputs_for(alloc, params.as_slice(), words)?;
    Ok(Inputs {
        values: Sequence::new(values),
    })
}

/// The name of main's parameter of this number. Takes memory for each parameter and for the name.
pub fn param_name(alloc: Global, checked: &Checked, param: usize) -> Result<Identifier, AllocError>
    requires { param < length (wanted checked.now) }
    ensures { IfOk result (λ n. option_map (λ w. w.name) (slice_get (wanted checked.now) param) ≡ Some n) }
{
    let params = all_wanted(alloc, checked)?;
    params[param].name.copy(alloc)
}

/// The names and kinds of main's parameters, in order.
fn all_wanted(alloc: Global, checked: &Checked) -> Result<Vec<Wanted>, AllocError>
    ensures { IfOk result (λ v. v.items ≡ wanted checked.now) }
{
    let rows = main_params(alloc, checked)?;
    wanted_all(alloc, checked, rows.as_slice())
}

/// The names and kinds of the parameters at these rows.
fn wanted_all(alloc: Global, checked: &Checked, params: &[usize]) -> Result<Vec<Wanted>, AllocError>
    ensures { IfOk result
        (λ v. v.items ≡ map (λ b. wanted_of checked.now (at (rows checked.now) b).node) params.now) }
{
    let mut wanted = Vec::new(alloc);
    for row in params {
        let param = wanted_of(alloc, checked, node_of(checked, *row))?;
        wanted.push(param)?;
    }
    Ok(wanted)
}

/// The name and kind of the parameter at a row of this node.
fn wanted_of(alloc: Global, checked: &Checked, node: Node) -> Result<Wanted, AllocError>
    ensures { IfOk result (λ w. w ≡ wanted_of checked.now node) }
{
    match node {
        Node::Param { name, kind } => {
            let name = name_of(alloc, checked, name)?;
            Ok(Wanted { name, kind })
        }
        _ => Ok(Wanted {
            name: Identifier::empty(),
            kind: Kind::Int,
        }),
    }
}

/// The name of this number.
fn name_of(alloc: Global, checked: &Checked, number: usize) -> Result<Identifier, AllocError>
    ensures { IfOk result (λ n. n ≡ get_or checked.now.table.names.items number []) }
{
    if number >= checked.table.names.len() {
        return Ok(Identifier::empty());
    }
    checked.table.names[number].copy(alloc)
}

/// The values that words give the parameters, in the parameters' order; refused as by `read_inputs`.
fn inputs_for(alloc: Global, params: &[Wanted], words: &[&str]) -> Result<Vec<Constant>, InputError>
    ensures given { IfOk result (λ v. AreGiven params.now (map (λ w. w.now) words.now) v.items) }
    ensures refused { IfErr result (IsCauseOf params.now (map (λ w. w.now) words.now)) }
{
    let values = values_said(alloc, params, words)?;
    all_of(alloc, values.as_slice())
}

/// For each parameter the value that the words give it, if they do; refused as by `read_inputs` for the words.
fn values_said(
    alloc: Global,
    params: &[Wanted],
    words: &[&str],
) -> Result<Vec<Option<Constant>>, InputError>
    ensures said { IfOk result (λ v. AreSaid params.now (map (λ w. w.now) words.now) v.items) }
    ensures refused { IfErr result (IsCauseOf params.now (map (λ w. w.now) words.now)) }
{
    let mut values = vec![in alloc; None; params.len()]?;
    for (j, word) in words.iter().enumerate() {
        if let Err(error) = take_word(&mut values, j, said(params, word)) {
            return Err(error);
        }
    }
    Ok(values)
}

/// Puts what word j says among the values, or tells why it is refused.
fn take_word(
    values: &mut Vec<Option<Constant>>,
    j: usize,
    said: Option<(usize, Option<Constant>)>,
) -> Result<(), InputError>
    requires { IfSome said (λ s. s.0 < length values.old.items) }
    ensures taken { OnOk result (cause_so values.old.items j said ≡ None) }
    ensures put { OnOk result (values.new.items ≡ values_so values.old.items said) }
    ensures refused { IfErr result (λ e. cause_so values.old.items j said ≡ Some e) }
{
    let Some((n, value)) = said else {
        return Err(InputError::UnknownInput { word: j });
    };
    if values[n].is_some() {
        return Err(InputError::RepeatedInput { word: j });
    }
    if value.is_none() {
        return Err(InputError::BadInput { word: j });
    }
    values[n] = value;
    Ok(())
}

/// The values, if none of them lacks; `MissingInput` for the first that does.
fn all_of(alloc: Global, values: &[Option<Constant>]) -> Result<Vec<Constant>, InputError>
    ensures same { IfOk result (λ v. map Some v.items ≡ values.now) }
    ensures lack { IfErr result (IsFirstLack values.now) }
{
    let mut given = vec![in alloc]?;
    for (n, value) in values.iter().enumerate() {
        match value {
            None => return Err(InputError::MissingInput { param: n }),
            Some(v) => given.push(*v)?,
        }
    }
    Ok(given)
}

/// The number of the parameter that the word names, and the value of its kind, if the word has one.
fn said(params: &[Wanted], word: &str) -> Option<(usize, Option<Constant>)>
    ensures said { said_so result ≡ said params.now word.now }
    ensures inside { IfSome result (λ s. s.0 < length params.now) }
{
    let Some((name, value)) = cut(word) else {
        return None;
    };
    let Some(n) = number_of(params, name) else {
        return None;
    };
    Some((n, value_spelled(params[n].kind, value)))
}

/// The word, cut at its first `=`, if it has one.
fn cut(word: &str) -> Option<(&str, &str)>
    ensures { cut_so result ≡ cut word.now }
{
    word.split_once('=')
}

/// The number of the first parameter with the name.
fn number_of(params: &[Wanted], name: &str) -> Option<usize>
    ensures number { result ≡ number_of params.now name.now }
    ensures inside { IfSome result (λ n. n < length params.now) }
{
    for (n, param) in params.iter().enumerate() {
        if param.name.as_str() == name {
            return Some(n);
        }
    }
    None
}

/// The value of the kind that the text spells.
fn value_spelled(kind: Kind, text: &str) -> Option<Constant>
    ensures { result ≡ value_spelled kind text.now }
{
    match kind {
        Kind::Int => whole_spelled(text.as_bytes()),
        Kind::Bool => truth_spelled(text),
        Kind::Array | Kind::Nested => None,
    }
}

/// The truth value that the text spells.
fn truth_spelled(text: &str) -> Option<Constant>
    ensures { result ≡ truth_spelled text.now }
{
    if text == "true" {
        Some(Constant::Bool(true))
    } else if text == "false" {
        Some(Constant::Bool(false))
    } else {
        None
    }
}

/// The whole number that the bytes spell: digits, or `-` and digits.
fn whole_spelled(bytes: &[u8]) -> Option<Constant>
    ensures { result ≡ option_and_then whole_value (number_spelled bytes.now) }
{
    if !bytes.is_empty() && bytes[0] == b'-' {
        negative_spelled(&bytes[1..])
    } else {
        positive_spelled(bytes)
    }
}

/// The whole number that the digits spell.
fn positive_spelled(digits: &[u8]) -> Option<Constant>
    ensures { result ≡ option_and_then whole_value (option_map (λ n. pos n) (digits_number digits.now)) }
{
    match digits_number(digits) {
        Some(n) => positive(n),
        None => None,
    }
}

/// The whole number that the digits spell behind `-`.
fn negative_spelled(digits: &[u8]) -> Option<Constant>
    ensures { result ≡ option_and_then whole_value (option_map (λ n. neg_ℤ (pos n)) (digits_number digits.now)) }
{
    match digits_number(digits) {
        Some(n) => negative(n),
        None => None,
    }
}

/// The whole number of this magnitude, if it is one of the language; the largest `u64` stands for all from there on.
fn positive(magnitude: u64) -> Option<Constant>
    ensures { (n : ℕ) → magnitude ≡ min n (2 ^ 64 - 1) → result ≡ whole_value (pos n) }
{
    if magnitude < LIMIT {
        Some(Constant::Int(magnitude as i64))
    } else {
        None
    }
}

/// The number with the other sign than `positive` gives, if it is one of the language.
fn negative(magnitude: u64) -> Option<Constant>
    ensures { (n : ℕ) → magnitude ≡ min n (2 ^ 64 - 1) → result ≡ whole_value (neg_ℤ (pos n)) }
{
    if magnitude > LIMIT {
        None
    } else if magnitude == LIMIT {
        Some(Constant::Int(i64::MIN))
    } else {
        Some(Constant::Int(-(magnitude as i64)))
    }
}

/// The number that the bytes spell, if they are digits; one above the largest `u64` gives that.
fn digits_number(bytes: &[u8]) -> Option<u64>
    ensures { result ≡ option_map (λ n. min n (2 ^ 64 - 1)) (digits_number bytes.now) }
{
    if are_digits(bytes) {
        Some(capped_number(bytes))
    } else {
        None
    }
}

/// Whether there are bytes, and all are digits.
fn are_digits(digits: &[u8]) -> bool
    ensures { result ≡ are_digits digits.now }
{
    for b in digits {
        if !b.is_ascii_digit() {
            return false;
        }
    }
    !digits.is_empty()
}

/// The number that the digits spell, or the largest `u64` if that is less.
fn capped_number(digits: &[u8]) -> u64
    requires { AllPass is_ascii_digit digits.now }
    ensures { result ≡ min (spelled_by digits.now) (2 ^ 64 - 1) }
{
    let mut value: u64 = 0;
    for digit in digits {
        value = value
            .saturating_mul(10)
            .saturating_add(u64::from(*digit - b'0'));
    }
    value
}

impl From<AllocError> for InputError {
    ghost use Rattle.std.specs.Prelude.{◌≡◌};
    ghost use Rattle.id_source.specs.declared.inputs.InputError.TheVariants.{Memory};

    ghost from_gives = { λ _ e. e ≡ Memory };

    fn from(_error: AllocError) -> InputError {
        InputError::Memory
    }
}

impl<T: Drop> From<AllocFailed<T>> for InputError {
    ghost use Rattle.std.specs.Prelude.{◌≡◌};
    ghost use Rattle.id_source.specs.declared.inputs.InputError.TheVariants.{Memory};

    ghost from_gives = { λ _ e. e ≡ Memory };

    fn from(_error: AllocFailed<T>) -> InputError {
        InputError::Memory
    }
}
