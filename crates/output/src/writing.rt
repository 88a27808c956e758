// Writing the output of a tightened day.
ghost use Rattle.std.specs.Prelude.{◌≡◌, ℕ, ◌<◌, Bool, [], ◌++◌, Ok};
ghost use Rattle.model.specs.Labels.{text_of};
ghost use Rattle.model.specs.Plans.{View};
ghost use Rattle.model.specs.Verdicts.{word_of};
ghost use Rattle.output.specs.Output.{line, earliest_of, latest_of, point_line, point_table, verdict_table};
ghost use Rattle.output.specs.Written.{IsText, Wrote};
ghost use Rattle.runs.specs.Shown.{Shown};
ghost use Rattle.sheet.specs.Sheets.{labels_of, points_of, shown_of};
ghost use Rattle.texts.specs.Texts.{cut};

use model::labels::Label;
use model::refusals::Refusal;
use model::verdicts::Verdict;
use rules::limit::Limit;
use rules::rule::Rule;
use runs::answers::Answer;
use sheet::sheets::Sheet;
use texts::texts::Text;

// The earliest and the latest minute of a point.
fn minutes_of<L: Limit>(sheet: &Sheet<L>, point: usize) -> Result<(i32, i32), Refusal>
    ensures { (m : View) (any : Bool) → shown_of sheet.now ≡ Shown.bounds m any → point < points_of sheet.now → result ≡ Ok (earliest_of m point, latest_of m point) }
{
    let back = sheet.bound(point, 0)?;
    let latest = sheet.bound(0, point)?;
    Ok((-back, latest))
}

// The line of a point. By its pieces, since `write!` promises only what an `Ok` wrote, and nothing says that it is `Ok`.
fn push_point(text: &mut Text, label: Label, earliest: i32, latest: i32)
    ensures { text.new ≡ cut (text.old ++ point_line (text_of label) earliest latest) }
{
    text.push_bytes(label.as_bytes());
    text.push(b' ');
    text.push_signed(earliest);
    text.push(b' ');
    text.push_signed(latest);
    text.push(b'\n');
}

// The table of the points, a line for each, and the empty line behind it, by pieces as `push_point` says.
fn push_table<L: Limit>(text: &mut Text, sheet: &Sheet<L>) -> Result<(), Refusal>
    ensures { (m : View) (any : Bool) → shown_of sheet.now ≡ Shown.bounds m any → (result ≡ Ok tt) × (text.new ≡ cut (text.old ++ (point_table m (labels_of sheet.now) ++ line []))) }
{
    text.push_bytes(b"label earliest latest\n");
    let labels = sheet.labels();
    for (point, label) in labels.iter().enumerate() {
        let (earliest, latest) = minutes_of(sheet, point)?;
        push_point(text, *label, earliest, latest);
    }
    text.push(b'\n');
    Ok(())
}

// The word of a verdict, as bytes.
fn word_of(verdict: Verdict) -> &'static [u8]
    ensures { result.now ≡ word_of verdict }
{
    verdict.word().as_bytes()
}

// The table of the verdict.
fn push_verdict(text: &mut Text, answer: Answer)
    ensures { text.new ≡ cut (text.old ++ verdict_table answer) }
{
    text.push_bytes(b"verdict loose\n");
    text.push_bytes(word_of(answer.verdict));
    text.push(b' ');
    text.push_unsigned(answer.count);
    text.push(b'\n');
}

// The output as a text. Refused: a sheet that is not tightened.
fn text_of<L: Limit>(sheet: &Sheet<L>) -> Result<Text, Refusal>
    ensures { IsText (labels_of sheet.now) (shown_of sheet.now) result }
{
    let answer = sheet.answer()?;
    let mut text = Text::new();
    match answer.verdict {
        Verdict::NoPlan => {}
        Verdict::Open | Verdict::AnyPlan => push_table(&mut text, sheet)?,
    }
    push_verdict(&mut text, answer);
    Ok(text)
}

// Writes the output at the front of the buffer, and tells its length. Refused: a sheet that is not tightened, a buffer that is
// shorter than the output; the buffer stays as it was then.
pub fn write_day<L: Limit>(sheet: &Sheet<L>, buffer: &mut [u8]) -> Result<usize, Refusal>
    ensures { Wrote (labels_of sheet.now) (shown_of sheet.now) buffer.old buffer.new result }
{
    let text = text_of(sheet)?;
    let bytes = text.as_bytes();
    let len = bytes.len();
    // a slice's `get_mut` would leave no fact about the bytes that are written through it
    if buffer.len() < len {
        return Err(Refusal::BufferShort);
    }
    buffer[0..len].copy_from_slice(bytes);
    Ok(len)
}
