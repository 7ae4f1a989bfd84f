//! Where in a configuration one stands.

ghost use Rattle.std.specs.Prelude.{◌≡◌};
ghost use Rattle.config_text.specs.Reading.{may_return};

/// Where in a line one stands.
#[derive(Clone, Copy, Debug, PartialEq, Eq)]
pub enum Place {
    /// At the front of a line.
    Start,
    /// Behind blanks at its front.
    Indented,
    /// In the name of a section.
    Section,
    /// Behind that name and a blank.
    BehindSection,
    /// In the quotes of a subsection.
    Sub,
    /// Behind a backslash there.
    SubEscape,
    /// Behind the quote that closes it.
    BehindSub,
    /// Behind the `]` of a header.
    BehindHeader,
    Key,
    /// Behind a key and a blank.
    BehindKey,
    /// In a value, outside quotes.
    Value,
    /// Behind a backslash there.
    ValueEscape,
    /// In a value, inside quotes.
    Quoted,
    /// Behind a backslash there.
    QuotedEscape,
    Comment,
}

impl Place {
    /// Whether a CR may stand there, or LF, before which it is dropped.
    pub fn may_return(self) -> bool
        ensures { result ≡ may_return self }
    {
        !matches!(
            self,
            Place::Section | Place::BehindSection | Place::BehindSub
        )
    }
}
