// The lines of a listing.
ghost use Rattle.std.specs.Prelude.{◌≡◌, ◌++◌, Some, string_bytes, OnOk};
ghost use Rattle.events.specs.Refusals.{number_of};
ghost use Rattle.recording.specs.Commands.{device_number, seat_number};
ghost use Rattle.lines.specs.Lines.{answer_lines};
ghost use Rattle.desk.specs.Texts.{line_text, lines_text, refusal_text};
ghost use Rattle.player.specs.Told.{is_live, told_end, told_letter};

use events::{Item, Refusal};
use model::{Answer, Read};
use recording::Place;
use std::alloc::AllocError;
use std::fmt;
use words::Shown;

// How a report end was told.
#[derive(Clone, Copy)]
enum Told {
    Live,
    CaughtUp,
}

// Printed as `L` or `C`.
impl fmt::Display for Told {
    ghost output = { λ told. Some (told_letter told) };

    fn fmt<W: fmt::Write>(&self, f: &mut fmt::Formatter<W>) -> fmt::Result {
        f.write_str(match self {
            Told::Live => "L",
            Told::CaughtUp => "C",
        })
    }
}

// A line: a report end by its number, for whom and how it was told, and the state then.
#[derive(Drop)]
struct Line<'a, S> {
    number: u32,
    place: Place,
    told: Told,
    state: &'a S,
}

// Printed as `3 1.0 C K31`.
impl<S: Shown> fmt::Display for Line<'_, S> {
    ghost output = { λ l. Some (line_text S.words (device_number l.place.device) (record { number = l.number; client = seat_number l.place.seat; live = is_live l.told; state = l.state.now })) };

    fn fmt<W: fmt::Write>(&self, f: &mut fmt::Formatter<W>) -> fmt::Result {
        let Line {
            number,
            place,
            told,
            state,
        } = self;
        writeln!(f, "{number} {place} {told}{state}")
    }
}

// The report end that an answer tells, and how: all that a line needs of a `Read`, of which only two kinds make lines.
fn report_end(answer: Answer) -> Option<(Item, Told)>
    ensures { result ≡ told_end answer }
{
    match answer {
        Answer::Read(Read::Live(item)) => Some((item, Told::Live)),
        Answer::Read(Read::CaughtUp(item)) => Some((item, Told::CaughtUp)),
        _ => None,
    }
    .filter(|(item, _)| item.is_report_end())
}

// The line that an answer makes, if it makes one. What is written here and in `Rig::read` is added to a text that grows, as `write!` does: a text of its own for each
// line would take memory each time.
pub(crate) fn write_answer<S: Shown>(
    text: &mut String,
    place: Place,
    state: &S,
    answer: Answer,
) -> Result<(), AllocError>
    ensures { OnOk result (string_bytes text.new ≡ string_bytes text.old ++ lines_text S.Shown.words (device_number place.device) (answer_lines (seat_number place.seat) state.now (Ok answer))) }
{
    let Some((item, told)) = report_end(answer) else {
        return Ok(());
    };
    let line = Line {
        number: item.number,
        place,
        told,
        state,
    };
    write!(text, "{line}")
}

// The line of a record that was refused.
pub(crate) fn write_refusal(
    text: &mut String,
    position: u64,
    refusal: Refusal,
) -> Result<(), AllocError>
    ensures { OnOk result (string_bytes text.new ≡ string_bytes text.old ++ refusal_text position (number_of refusal)) }
{
    let number = refusal.number();
    writeln!(text, "! {position} {number}")
}
