// From the bytes of a text to the expression that it means, or to the first of refusals 1 to 6.

#![tactic(auto)]

mod readers;
mod scan;

ghost use Rattle.std.specs.Prelude.{◌≡◌, MatchResult};
ghost use Rattle.std.proofs.Math.Option.{none};
ghost use Rattle.terms.specs.declared.Reason.TheVariants.{NotASum};
ghost use Rattle.formula.specs.Code.Held.{kinds_of, spans_of};
ghost use Rattle.grammar.specs.Twins.Places.{surplus};
ghost use Rattle.text.specs.Code.Answers.{given, EarlyRight, CrowdedRight, ReadRight};

use formula::Slot;
use terms::{LONGEST_TEXT, Reason, Refusal};

// Where reading stopped: the length of the longest beginning of the text that some ending completes.
#[derive(Clone, Copy)]
pub struct Stop(pub usize);

impl From<Stop> for Refusal {
    ghost from_gives = { λ stop r. r ≡ record { reason = NotASum; at = stop.0 } };

    fn from(stop: Stop) -> Refusal {
        Refusal {
            reason: Reason::NotASum,
            at: stop.0,
        }
    }
}

// The refusal for such a reason at the place that a pass found, if it found one.
fn given(reason: Reason, found: Option<usize>) -> Result<(), Refusal>
    ensures { result ≡ given reason found }
{
    match found {
        Some(at) => Err(Refusal { reason, at }),
        None => Ok(()),
    }
}

// Refusals 1 to 4, each over the whole text before the next.
#[tactic(auto, using(crate::proofs::Early::refused_long, crate::proofs::Early::refused_run, crate::proofs::Early::deep_last))]
fn first_refusal(text: &[u8]) -> Result<(), Refusal>
    ensures { EarlyRight text.now result }
{
    if LONGEST_TEXT < text.len() {
        return Err(Refusal {
            reason: Reason::TooLong,
            at: LONGEST_TEXT,
        });
    }
    given(Reason::NotAllowed, scan::foreign(text))?;
    given(Reason::BadNumber, scan::bad_run(text))?;
    given(Reason::TooDeep, scan::too_deep(text))
}

// Refusal 5 or 6, if the text has more numbers than the most literals; nothing is built.
#[tactic(auto, using(crate::proofs::Early::sum_beyond, crate::proofs::Early::no_sum))]
fn crowded(text: &[u8]) -> Result<(), Refusal>
    ensures { MatchResult result (λ _. surplus text.now ≡ none) (CrowdedRight text.now) }
{
    let Some(at) = scan::surplus(text) else {
        return Ok(());
    };
    scan::flat(text)?;
    Err(Refusal {
        reason: Reason::TooMany,
        at,
    })
}

// The expression that a text means, in positive form in the lent slots: how many literals they hold, with the root in the slot of
// twice that number less two; or the first of refusals 1 to 6.
pub fn read(text: &[u8], slots: &mut [Slot; 2047]) -> Result<usize, Refusal>
    ensures { ReadRight text.now (kinds_of slots.new) (spans_of slots.new) result }
{
    first_refusal(text)?;
    crowded(text)?;
    let filled = readers::whole(text, slots)?;
    Ok(filled.div_ceil(2))
}
