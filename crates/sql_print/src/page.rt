// A text that grows token by token.

ghost use Rattle.std.specs.Prelude.{◌≡◌, ◌++◌, [], ◌∷◌, pos, None, Some, OnOk, codes};
ghost use Rattle.sql_lex.specs.declared.token.Value.TheVariants as v;
ghost use Rattle.sql_lex.specs.declared.token.Kind.TheVariants as k;
ghost use Rattle.sql_print.specs.Said.{fixed};
ghost use Rattle.sql_print.specs.Spelling.{writes};
ghost use Rattle.sql_print.specs.Spelling as spec;
ghost use Rattle.sql_print.specs.Page.{state};

use sp_value::{Memory, Text};
use sql_lex::{Kind, is_plain, quote_text};
use std::alloc::Global;

/// What was written, and the kind of its last token.
#[derive(Drop)]
pub struct Page {
    alloc: Global,
    text: String,
    last: Option<Kind>,
}

fn gap_before(next: Kind) -> &'static str
    ensures { result.now ≡ spec.gap_before next }
{
    match next {
        Kind::Comma => "",
        Kind::Close => "",
        Kind::Dot => "",
        _ => " ",
    }
}

fn gap(last: Option<Kind>, next: Kind) -> &'static str
    ensures { result.now ≡ spec.gap last next }
{
    match last {
        None => "",
        Some(Kind::Open) => "",
        Some(Kind::Dot) => "",
        Some(_) => gap_before(next),
    }
}

fn spelling(kind: Kind) -> &'static str
    ensures { result.now ≡ spec.word_spelling kind }
{
    match kind {
        Kind::Select => "select",
        Kind::From => "from",
        Kind::Where => "where",
        Kind::Join => "join",
        Kind::Inner => "inner",
        Kind::On => "on",
        Kind::Order => "order",
        Kind::By => "by",
        Kind::Asc => "asc",
        Kind::Desc => "desc",
        Kind::Limit => "limit",
        Kind::And => "and",
        Kind::Or => "or",
        Kind::Not => "not",
        Kind::In => "in",
        Kind::Is => "is",
        Kind::Null => "null",
        Kind::True => "true",
        Kind::False => "false",
        Kind::As => "as",
        Kind::Group => "group",
        Kind::Star => "*",
        Kind::Comma => ",",
        Kind::Dot => ".",
        Kind::Open => "(",
        Kind::Close => ")",
        Kind::Semi => ";",
        Kind::Equal => "=",
        Kind::NotEqual => "<>",
        Kind::Less => "<",
        Kind::AtMost => "<=",
        Kind::Greater => ">",
        Kind::AtLeast => ">=",
        Kind::Name | Kind::Number | Kind::Text | Kind::Bad => "",
    }
}

impl Page {
    pub fn new(alloc: Global) -> Page
        ensures { state result ≡ ([], None) }
    {
        Page {
            alloc,
            text: String::new(alloc),
            last: None,
        }
    }

    pub fn into_text(self) -> Text
        ensures { result ≡ (state self).0 }
    {
        Text::from_string(self.text)
    }

    fn put(&mut self, kind: Kind, spelling: &str) -> Result<(), Memory>
        ensures { OnOk result (state self.new ≡ ((state self.old).0 ++ (spec.gap (state self.old).1 kind ++ spelling.now), Some kind)) }
    {
        let Ok(()) = self.text.push_str(gap(self.last, kind)) else {
            return Err(Memory);
        };
        let Ok(()) = self.text.push_str(spelling) else {
            return Err(Memory);
        };
        self.last = Some(kind);
        Ok(())
    }

    /// Writes a reserved word or a sign.
    pub fn word(&mut self, kind: Kind) -> Result<(), Memory>
        ensures { OnOk result (state self.new ≡ writes (state self.old) (fixed kind)) }
    {
        self.put(kind, spelling(kind))
    }

    pub fn name(&mut self, text: &Text) -> Result<(), Memory>
        ensures { OnOk result (state self.new ≡ writes (state self.old) ((k.Name, v.Text text.now) ∷ [])) }
    {
        if is_plain(text.as_bytes()) {
            self.put(Kind::Name, text.as_str())
        } else {
            let quoted = quote_text(self.alloc, b'"', text.as_str())?;
            self.put(Kind::Name, quoted.as_str())
        }
    }

    pub fn text(&mut self, text: &Text) -> Result<(), Memory>
        ensures { OnOk result (state self.new ≡ writes (state self.old) ((k.Text, v.Text text.now) ∷ [])) }
    {
        let quoted = quote_text(self.alloc, b'\'', text.as_str())?;
        self.put(Kind::Text, quoted.as_str())
    }

    pub fn integer(&mut self, n: i64) -> Result<(), Memory>
        ensures { OnOk result (state self.new ≡ writes (state self.old) ((k.Number, v.Number n) ∷ [])) }
    {
        match format!(in self.alloc; "{n}") {
            Ok(digits) => self.put(Kind::Number, digits.as_str()),
            Err(_) => Err(Memory),
        }
    }

    pub fn count(&mut self, n: u64) -> Result<(), Memory>
        ensures { OnOk result (state self.new ≡ writes (state self.old) ((k.Number, v.Number (pos n)) ∷ [])) }
    {
        match format!(in self.alloc; "{n}") {
            Ok(digits) => self.put(Kind::Number, digits.as_str()),
            Err(_) => Err(Memory),
        }
    }
}
