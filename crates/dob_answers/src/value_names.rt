// Values as they are written in questions about cells and worlds: `w3`, `l0` and `d`.
use dob_value::Value;
use std::fmt;

/// A value, to be written in that way.
#[derive(Clone, Copy)]
pub(crate) struct Named(pub(crate) Value);

impl fmt::Display for Named {
    fn fmt<W: fmt::Write>(&self, f: &mut fmt::Formatter<W>) -> fmt::Result {
        match self.0 {
            Value::Draw => write!(f, "d"),
            Value::Win(plies) => write!(f, "w{plies}"),
            Value::Loss(plies) => write!(f, "l{plies}"),
        }
    }
}

/// The value that is written so; none if the text is no value.
pub(crate) fn read_value(text: &str) -> Option<Value> {
    if text == "d" {
        return Some(Value::Draw);
    }
    if let Some(plies) = text.strip_prefix('w') {
        return Some(Value::Win(plies.parse::<u16>().ok()?));
    }
    let plies = text.strip_prefix('l')?;
    Some(Value::Loss(plies.parse::<u16>().ok()?))
}
