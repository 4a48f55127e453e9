//! The lines of `klsm knapsack`.
ghost use Rattle.std.specs.Prelude.{◌≡◌, ◌≤◌, ◌<◌, ◌^◌, ◌++◌, length, IfOk};
ghost use Rattle.klsm_text.specs.SelectionText.{best_text, head_of, pick_text, picks_text, read_text};
ghost use Rattle.klsm_text.specs.LineText.{BeginsWithin, made};

use crate::line_text::LineText;
use crate::stop::refused_row;
use klsm_instance::{Best, Instance, ReadError};
use std::alloc::{AllocError, Global};

/// The line of a selection.
pub fn selection_text(
    alloc: Global,
    instance: &Instance,
    best: &Best,
) -> Result<Vec<u8>, AllocError>
    ensures text { IfOk result (λ text. text.items ≡ best_text instance.now best.now) }
    ensures short { IfOk result (λ text. length text.items < 2 ^ 63) }
{
    let weight = instance.totals(best.picks).weight;
    let mut text = Vec::new(alloc);
    text.extend_from_slice(head_text(best.value, weight).as_bytes())?;
    put_picks(&mut text, instance.len(), best.picks)?;
    text.extend_from_slice(b"\n")?;
    Ok(text)
}

fn head_text(value: u64, weight: u64) -> LineText
    ensures within { BeginsWithin result }
    ensures text { made result ≡ head_of value weight }
{
    let mut text = LineText::new();
    text.prepend(b" picks");
    text.prepend_number(weight);
    text.prepend(b" weight ");
    text.prepend_number(value);
    text.prepend(b"value ");
    text
}

// Puts the numbers of the things selected, of so many.
fn put_picks(text: &mut Vec<u8>, count: usize, picks: u64) -> Result<(), AllocError>
    ensures { IfOk result (λ _. text.new.items ≡ text.old.items ++ picks_text count 0 picks) }
{
    let mut rest = picks;
    for index in 0..count {
        put_pick(text, index as u64, rest % 2 == 1)?;
        rest /= 2;
    }
    Ok(())
}

fn put_pick(text: &mut Vec<u8>, number: u64, is_picked: bool) -> Result<(), AllocError>
    ensures { IfOk result (λ _. text.new.items ≡ text.old.items ++ pick_text number is_picked) }
{
    if !is_picked {
        return Ok(());
    }
    let mut pick = LineText::new();
    pick.prepend_number(number);
    pick.prepend(b" ");
    text.extend_from_slice(pick.as_bytes())
}

/// The line of an instance that is not read.
pub fn refusal_text(why: ReadError) -> LineText
    ensures within { BeginsWithin result }
    ensures text { made result ≡ read_text why }
{
    match why {
        ReadError::BadRow(row) => refused_row(row, b"fields"),
        ReadError::TooMany => refused_row(34, b"items"),
        ReadError::BadNumber(row) => refused_row(row, b"number"),
        ReadError::OutOfRange(row) => refused_row(row, b"range"),
        ReadError::ReadFault => only(b"read fault\n"),
        ReadError::NoMemory => only(b"no memory\n"),
    }
}

fn only(piece: &[u8]) -> LineText
    requires { length piece.now ≤ 160 }
    ensures within { BeginsWithin result }
    ensures text { made result ≡ piece.now }
{
    let mut text = LineText::new();
    text.prepend(piece);
    text
}
