//! The lines with which commands refuse.
ghost use Rattle.std.specs.Prelude.{◌≡◌, ◌++◌, OnOk, codes};
ghost use Rattle.answers.specs.Report.{word_why_text, object_why_text, point_why_text, trace_why_text, text_why_text, refusal_line, fault_line};

use crate::answer::Answer;
use checkpoint::PointWhy;
use ecoff_load::ObjectWhy;
use event_trace::TraceWhy;
use sim_opts::WordWhy;
use ss_base::{OutOfMemory, TextWhy, push_decimal};

/// The name of a reason for which words are wrong.
fn word_why_name(why: WordWhy) -> &'static str
    ensures { result.now ≡ word_why_text why }
{
    match why {
        WordWhy::NoCommand => "NoCommand",
        WordWhy::Command => "Command",
        WordWhy::Option => "Option",
        WordWhy::NotHere => "NotHere",
        WordWhy::Twice => "Twice",
        WordWhy::Missing => "Missing",
        WordWhy::Number => "Number",
        WordWhy::Range => "Range",
        WordWhy::Form => "Form",
        WordWhy::NoObject => "NoObject",
        WordWhy::Extra => "Extra",
        WordWhy::TooLong => "TooLong",
        WordWhy::Clash => "Clash",
    }
}

/// The name of a reason for which an object is refused.
fn object_why_name(why: ObjectWhy) -> &'static str
    ensures { result.now ≡ object_why_text why }
{
    match why {
        ObjectWhy::Short => "Short",
        ObjectWhy::Magic => "Magic",
        ObjectWhy::Sections => "Sections",
        ObjectWhy::OptHeader => "OptHeader",
        ObjectWhy::TextTwice => "TextTwice",
        ObjectWhy::TextAlign => "TextAlign",
        ObjectWhy::TextSize => "TextSize",
        ObjectWhy::Range => "Range",
        ObjectWhy::NoText => "NoText",
        ObjectWhy::Overlap => "Overlap",
    }
}

/// The name of a reason for which a point is refused.
fn point_why_name(why: PointWhy) -> &'static str
    ensures { result.now ≡ point_why_text why }
{
    match why {
        PointWhy::Short => "Short",
        PointWhy::Magic => "Magic",
        PointWhy::Count => "Count",
        PointWhy::Register => "Register",
        PointWhy::Ended => "Ended",
        PointWhy::Pages => "Pages",
        PointWhy::ByteOrder => "ByteOrder",
        PointWhy::Order => "Order",
        PointWhy::ZeroPage => "ZeroPage",
        PointWhy::Extra => "Extra",
        PointWhy::OtherOrder => "OtherOrder",
        PointWhy::Text => "Text",
        PointWhy::OtherText => "OtherText",
    }
}

/// The name of a reason for which a trace is refused.
fn trace_why_name(why: TraceWhy) -> &'static str
    ensures { result.now ≡ trace_why_text why }
{
    match why {
        TraceWhy::Short => "Short",
        TraceWhy::Magic => "Magic",
        TraceWhy::Count => "Count",
        TraceWhy::ByteOrder => "ByteOrder",
        TraceWhy::Order => "Order",
        TraceWhy::Kind => "Kind",
        TraceWhy::Many => "Many",
        TraceWhy::Pad => "Pad",
        TraceWhy::Exit => "Exit",
        TraceWhy::Register => "Register",
        TraceWhy::Block => "Block",
        TraceWhy::Extra => "Extra",
        TraceWhy::OtherOrder => "OtherOrder",
    }
}

/// The name of a reason for which a source or a configuration is refused.
fn text_why_name(why: TextWhy) -> &'static str
    ensures { result.now ≡ text_why_text why }
{
    match why {
        TextWhy::Char => "Char",
        TextWhy::Option => "Option",
        TextWhy::NotHere => "NotHere",
        TextWhy::Twice => "Twice",
        TextWhy::Missing => "Missing",
        TextWhy::Number => "Number",
        TextWhy::Range => "Range",
        TextWhy::Form => "Form",
        TextWhy::Extra => "Extra",
        TextWhy::Mnemonic => "Mnemonic",
        TextWhy::Section => "Section",
        TextWhy::Label => "Label",
        TextWhy::Layout => "Layout",
    }
}

/// Adds a text.
pub fn push_text(into: &mut Vec<u8>, text: &str) -> Result<(), OutOfMemory>
    ensures { OnOk result (into.new.items ≡ into.old.items ++ text.now) }
{
    into.extend_from_slice(text.as_bytes())?;
    Ok(())
}

/// Adds the line of a refusal at a place of words or of a file of some kind.
fn push_refusal(into: &mut Vec<u8>, kind: &str, at: u64, why: &str) -> Result<(), OutOfMemory>
    ensures { OnOk result (into.new.items ≡ into.old.items ++ refusal_line kind.now at why.now) }
{
    push_text(into, "pisa: ")?;
    push_text(into, kind)?;
    push_text(into, " ")?;
    push_decimal(into, at)?;
    push_text(into, " ")?;
    push_text(into, why)?;
    push_text(into, "\n")
}

/// Adds the line of a file that is too long.
fn push_too_long(into: &mut Vec<u8>, name: &str) -> Result<(), OutOfMemory>
    ensures { OnOk result (into.new.items ≡ into.old.items ++ codes "pisa: too-long " ++ name.now ++ codes "\n") }
{
    push_text(into, "pisa: too-long ")?;
    push_text(into, name)?;
    push_text(into, "\n")
}

/// Adds the line of an answer, if it has one.
pub fn push_fault_line(into: &mut Vec<u8>, answer: &Answer) -> Result<(), OutOfMemory>
    ensures { OnOk result (into.new.items ≡ into.old.items ++ fault_line answer.now) }
{
    match answer {
        Answer::Words { at, why } => {
            push_refusal(into, "words", u64::from(*at), word_why_name(*why))
        }
        Answer::Object { at, why } => push_refusal(into, "object", *at, object_why_name(*why)),
        Answer::Point { at, why } => push_refusal(into, "point", *at, point_why_name(*why)),
        Answer::Trace { at, why } => push_refusal(into, "trace", *at, trace_why_name(*why)),
        Answer::Text { line, why } => {
            push_refusal(into, "text", u64::from(*line), text_why_name(*why))
        }
        Answer::TooLong { name } => push_too_long(into, name.as_str()),
        Answer::Exited { .. }
        | Answer::Made
        | Answer::Stopped { .. }
        | Answer::Budget
        | Answer::NotBuilt { .. } => Ok(()),
    }
}
