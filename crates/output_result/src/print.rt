//! The lines that tell findings.

ghost use Rattle.std.specs.Prelude.{◌≡◌, List, ◌++◌, ◌∷◌, [], OnOk, decimal};
ghost use Rattle.ratfun_text.specs.Printed.{AreVariables};
ghost use Rattle.output_result.specs.Findings.{result_of};
ghost use Rattle.output_result.specs.Methods.{report_of};
ghost use Rattle.output_result.specs.Printing.{IsShown};
ghost use Rattle.output_result.specs.Texts.{method_text, part_text, report_text, result_line, result_text};

use crate::{Finding, Methods, NoMemory};
use itoa::Buffer;
use multivar_recon::Method;
use ratfun_text::{Name, print_mono, print_quotient};
use rational_lift::Part;
use std::alloc::Global;

fn push_number(text: &mut Vec<u8>, number: u128) -> Result<(), NoMemory>
    ensures { OnOk result (text.new.items ≡ text.old.items ++ decimal number) }
{
    let mut buffer = Buffer::new();
    text.extend_from_slice(buffer.format(number).as_bytes())
}

fn push_part(text: &mut Vec<u8>, part: Part) -> Result<(), NoMemory>
    ensures { OnOk result (text.new.items ≡ text.old.items ++ part_text part) }
{
    match part {
        Part::Numerator => text.extend_from_slice(b"numerator"),
        Part::Denominator => text.extend_from_slice(b"denominator"),
    }
}

/// Puts what was found behind the text: `= FUNCTION`, or `?` with why there is none.
fn push_finding(
    alloc: Global,
    text: &mut Vec<u8>,
    finding: &Finding,
    names: &[Name],
) -> Result<(), NoMemory>
    requires names { AreVariables names.now }
    requires shown { IsShown names.now (result_of finding.now) }
    ensures { OnOk result (text.new.items ≡ text.old.items ++ result_text names.now (result_of finding.now)) }
{
    match finding {
        Finding::Found(quotient) => {
            text.extend_from_slice(b"= ")?;
            text.extend_from_slice(print_quotient(alloc, quotient, names)?.bytes())
        }
        Finding::NoPair(m) => {
            text.extend_from_slice(b"? nopair ")?;
            push_number(text, u128::from(m.number()))
        }
        Finding::Unlike { lead1, lead2 } => {
            text.extend_from_slice(b"? unlike ")?;
            text.extend_from_slice(print_mono(alloc, lead1, names)?.bytes())?;
            text.push(b' ')?;
            text.extend_from_slice(print_mono(alloc, lead2, names)?.bytes())
        }
        Finding::NoRational {
            part,
            mono,
            residue,
        } => {
            text.extend_from_slice(b"? norational ")?;
            push_part(text, *part)?;
            text.push(b' ')?;
            text.extend_from_slice(print_mono(alloc, mono, names)?.bytes())?;
            text.push(b' ')?;
            push_number(text, *residue)
        }
    }
}

/// The word for how a least pair was found.
fn push_method(text: &mut Vec<u8>, method: Method) -> Result<(), NoMemory>
    ensures { OnOk result (text.new.items ≡ text.old.items ++ method_text method) }
{
    match method {
        Method::Rays => text.extend_from_slice(b"rays"),
        Method::Fit => text.extend_from_slice(b"fit"),
    }
}

/// Puts how the least pair was found at each modulus behind the text, where that is to be told and there are pairs.
fn push_report(
    text: &mut Vec<u8>,
    finding: &Finding,
    report: Option<Methods>,
) -> Result<(), NoMemory>
    ensures { OnOk result (text.new.items ≡ text.old.items ++ report_text (report_of report) (result_of finding.now)) }
{
    let Some(methods) = report else {
        return Ok(());
    };
    if let Finding::NoPair(_) = finding {
        return Ok(());
    }
    text.extend_from_slice(b" # ")?;
    push_method(text, methods.first)?;
    text.push(b' ')?;
    push_method(text, methods.second)
}

/// Puts the line of output `number` behind the text: `f`, the number, a blank, what was found, how it was found if that is
/// to be told, and a line feed.
pub fn push_line(
    alloc: Global,
    text: &mut Vec<u8>,
    number: u32,
    finding: &Finding,
    report: Option<Methods>,
    names: &[Name],
) -> Result<(), NoMemory>
    requires names { AreVariables names.now }
    requires shown { IsShown names.now (result_of finding.now) }
    ensures { OnOk result (text.new.items ≡ text.old.items ++ ((result_line names.now number (result_of finding.now) ++ report_text (report_of report) (result_of finding.now)) ++ 10 ∷ [])) }
{
    text.push(b'f')?;
    push_number(text, u128::from(number))?;
    text.push(b' ')?;
    push_finding(alloc, text, finding, names)?;
    push_report(text, finding, report)?;
    text.push(b'\n')?;
    Ok(())
}
