// What an instruction does, by its operation.
ghost use Rattle.std.specs.Prelude.{◌≡◌, ◌↔◌, ◌<◌, ℕ, length, map, slice_get, MatchResult, Some, None};
ghost use Rattle.std.specs.Prelude.{IsTrue};
ghost use Rattle.hz_value.specs.Numbers.{sum_of, difference_of, product_of};
ghost use Rattle.hz_file.specs.Module.{module_of};
ghost use Rattle.hz_ops.specs.Contents.{print_name};
ghost use Rattle.hz_ops.specs.Step as row;
ghost use Rattle.hermes.specs.FileCode.{code_module};
ghost use Rattle.hermes.specs.first.Rows.{activation, IsStep, Put, HasNumbers, PrintsLine, called, CallsPrint, Stops};
ghost use Rattle.hermes.specs.first.Rows.{content_of};

use crate::first::run::held::Held;
use crate::first::run::line::{line_bytes, line_of};
use crate::first::run::operands::CallOperands;
use crate::first::run::stop::{FirstEnd, Stop};
use hz_file::{File, StringView};
use hz_value::{Left, Safe};
use std::alloc::Global;

/// What a register holds; one that is not there is bad code.
fn held<'r, 'a>(registers: &'r [Held<'a>], r: u64) -> Result<&'r Held<'a>, Stop>
    ensures { MatchResult result (λ h. slice_get registers.entry.now r ≡ Some h.now)
        (λ stop. (slice_get registers.entry.now r ≡ None) × (stop ≡ Stop.End FirstEnd.BadCode)) }
{
    registers
        .get(r as usize)
        .ok_or(Stop::End(FirstEnd::BadCode))
}

/// Puts the value into a register; one that is not there is bad code.
fn put<'a>(registers: &mut [Held<'a>], r: u64, value: Held<'a>) -> Result<(), Stop>
    ensures { Put registers.old registers.new r value.entry result }
{
    if r >= registers.len() as u64 {
        return Err(Stop::End(FirstEnd::BadCode));
    }
    registers[r as usize] = value;
    Ok(())
}

/// LoadUndefined.
pub(crate) fn load_undefined(registers: &mut [Held<'_>], r: u64) -> Result<(), Stop>
    ensures { (place next : ℕ)
        → IsStep (row.load_undefined next (activation place registers.old) r) result
        (activation next registers.new) }
{
    put(registers, r, Held::Undefined)
}

/// LoadInt: the integer has to be safe.
pub(crate) fn load_int(registers: &mut [Held<'_>], r: u64, integer: i64) -> Result<(), Stop>
    ensures { (place next : ℕ)
        → IsStep (row.load_int next (activation place registers.old) r integer) result
        (activation next registers.new) }
{
    let number = Safe::new(integer).ok_or(Stop::End(FirstEnd::BadCode))?;
    put(registers, r, Held::Number(number))
}

/// LoadString: the text has to be there.
pub(crate) fn load_string<'a>(
    file: &File<'a>,
    registers: &mut [Held<'a>],
    r: u64,
    id: u64,
) -> Result<(), Stop>
    ensures { (place next : ℕ)
        → IsStep
        (row.load_string (code_module (module_of file.now)) next
        (activation place registers.old) r id) result (activation next registers.new) }
{
    let text = file.string(id).ok_or(Stop::End(FirstEnd::BadCode))?;
    put(registers, r, Held::Text(text))
}

/// Whether the text is `print`.
fn is_print(name: &StringView<'_>) -> bool
    ensures { IsTrue result ↔ (name.now ≡ print_name) }
{
    let print = b"print";
    if name.len() != 5 {
        return false;
    }
    for (i, letter) in print.iter().enumerate() {
        if name.unit(i as u64) != Some(*letter as u16) {
            return false;
        }
    }
    true
}

/// LoadGlobal: the text has to be there, and names `print`.
pub(crate) fn load_global<'a>(
    file: &File<'a>,
    registers: &mut [Held<'a>],
    r: u64,
    id: u64,
) -> Result<(), Stop>
    ensures { (place next : ℕ)
        → IsStep
        (row.load_global (code_module (module_of file.now)) next
        (activation place registers.old) r id) result (activation next registers.new) }
{
    held(registers, r)?;
    let name = file.string(id).ok_or(Stop::End(FirstEnd::BadCode))?;
    if !is_print(&name) {
        return Err(Stop::Unbuilt);
    }
    put(registers, r, Held::Print)
}

/// The two numbers of an operator whose result goes into register r.
fn operands(registers: &[Held<'_>], r: u64, x: u64, y: u64) -> Result<(Safe, Safe), Stop>
    ensures { HasNumbers registers.now r x y result }
{
    held(registers, r)?;
    match (held(registers, x)?, held(registers, y)?) {
        (Held::Number(x), Held::Number(y)) => Ok((*x, *y)),
        _ => Err(Stop::Unbuilt),
    }
}

/// Puts the number into register r, or leaves where the operator has none.
fn put_number(registers: &mut [Held<'_>], r: u64, number: Option<Safe>) -> Result<(), Stop>
    requires { r < length registers.old }
    ensures { (place next : ℕ)
        → IsStep (row.number_to next (activation place registers.old) r number) result
        (activation next registers.new) }
{
    let number = number.ok_or(Stop::End(FirstEnd::Left(Left::NotSafe)))?;
    put(registers, r, Held::Number(number))
}

/// Add.
pub(crate) fn add(registers: &mut [Held<'_>], r: u64, x: u64, y: u64) -> Result<(), Stop>
    ensures { (place next : ℕ)
        → IsStep (row.arithmetic sum_of next (activation place registers.old) r x y) result
        (activation next registers.new) }
{
    let (a, b) = operands(registers, r, x, y)?;
    put_number(registers, r, hz_value::add(a, b))
}

/// Sub.
pub(crate) fn sub(registers: &mut [Held<'_>], r: u64, x: u64, y: u64) -> Result<(), Stop>
    ensures { (place next : ℕ)
        → IsStep (row.arithmetic difference_of next (activation place registers.old) r x y) result
        (activation next registers.new) }
{
    let (a, b) = operands(registers, r, x, y)?;
    put_number(registers, r, hz_value::sub(a, b))
}

/// Mul.
pub(crate) fn mul(registers: &mut [Held<'_>], r: u64, x: u64, y: u64) -> Result<(), Stop>
    ensures { (place next : ℕ)
        → IsStep (row.arithmetic product_of next (activation place registers.old) r x y) result
        (activation next registers.new) }
{
    let (a, b) = operands(registers, r, x, y)?;
    put_number(registers, r, hz_value::mul(a, b))
}

/// Return.
pub(crate) fn return_from(registers: &[Held<'_>], r: u64) -> Result<(), Stop>
    ensures { (place next : ℕ)
        → IsStep (row.return_from (activation place registers.now) r) result
        (activation next registers.now) }
{
    held(registers, r)?;
    Err(Stop::End(FirstEnd::Done))
}

/// The contents of so many registers in a row; bad code where one of them is not there.
fn row_at<'r, 'a>(registers: &'r [Held<'a>], first: u64, count: u8) -> Result<&'r [Held<'a>], Stop>
    requires { first < length registers.now }
    ensures { MatchResult result
        (λ contents. row.row_at (map content_of registers.entry.now) first count
        ≡ Some (map content_of contents.now))
        (λ stop. (row.row_at (map content_of registers.entry.now) first count ≡ None)
        × (stop ≡ Stop.End FirstEnd.BadCode)) }
{
    let first = first as usize;
    let end = first + count as usize;
    if end > registers.len() {
        return Err(Stop::End(FirstEnd::BadCode));
    }
    Ok(&registers[first..end])
}

/// The arguments of a call, which has to be one of `print`.
fn arguments<'r, 'a>(registers: &'r [Held<'a>], call: CallOperands) -> Result<&'r [Held<'a>], Stop>
    ensures { MatchResult result (λ contents. CallsPrint registers.entry.now call contents.now)
        (λ stop. Stops registers.entry.now call stop) }
{
    held(registers, call.result)?;
    let callee = held(registers, call.callee)?;
    held(registers, call.this)?;
    held(registers, call.first)?;
    let contents = row_at(registers, call.first, call.count)?;
    match callee {
        Held::Print => Ok(contents),
        _ => Err(Stop::Unbuilt),
    }
}

/// Call: gives the bytes of the line that it prints.
pub(crate) fn call(
    alloc: Global,
    registers: &mut [Held<'_>],
    call: CallOperands,
) -> Result<String, Stop>
    ensures { (place next : ℕ)
        → PrintsLine (called place next registers.old call) result (activation next registers.new) }
{
    let line = line_of(alloc, arguments(registers, call)?)?;
    let bytes = line_bytes(alloc, line.as_slice())?;
    put(registers, call.result, Held::Undefined)?;
    Ok(bytes)
}
