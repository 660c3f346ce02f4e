// Which of a certificate's lists.

/// A list of classes that are lost, or one of classes that aren't.
#[derive(Clone, Copy, PartialEq, Eq)]
pub enum ListKind {
    Lost,
    Held,
}
