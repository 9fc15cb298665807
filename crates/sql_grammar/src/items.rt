// Reading what is shown.

ghost use Rattle.std.specs.Prelude.{◌≡◌, [], ◌∷◌};
ghost use Rattle.sql_grammar.specs.Gives.{Gives};
ghost use Rattle.sql_grammar.specs.Parser as spec;
ghost use Rattle.sql_grammar.specs.Parser.{with_front};
ghost use Rattle.sql_lex.specs.declared.token.Kind.TheVariants as Kind;

use crate::ast::{Item, Shown};
use crate::stop::Stop;
use crate::words::{column, next_is, word, word_name};
use sql_lex::{Kind, Token};
use sqlite_items::Items;
use std::alloc::Global;

#[tactic(auto, unfolding(crate::specs::Parser::item_at))]
fn item<'a>(alloc: Global, tokens: &'a [Token]) -> Result<(Item, &'a [Token]), Stop<'a>>
    ensures { Gives (λ x. (x.0, x.1.now)) result (spec.item_at tokens.now) }
{
    let (of, rest) = column(alloc, tokens)?;
    let (alias, rest) = word_name(alloc, rest, Kind::As)?;
    Ok((Item { of, alias }, rest))
}

// What goes on with `, item`, after the first.
fn more_items<'a>(
    alloc: Global,
    first: Item,
    tokens: &'a [Token],
) -> Result<(Items<Item>, &'a [Token]), Stop<'a>>
    ensures { Gives (λ x. (x.0, x.1.now)) result (with_front (first ∷ []) (spec.more_at Kind.Comma spec.item_at tokens.now)) }
{
    let mut found = Items::new(alloc);
    found.push(first)?;
    let mut rest = tokens;
    'more: while next_is(rest, Kind::Comma) {
        let after = word(rest, Kind::Comma)?;
        let (next, after) = item(alloc, after)?;
        found.push(next)?;
        rest = after;
    }
    Ok((found, rest))
}

#[tactic(auto, unfolding(crate::specs::Parser::shown_at))]
pub fn shown<'a>(alloc: Global, tokens: &'a [Token]) -> Result<(Shown, &'a [Token]), Stop<'a>>
    ensures { Gives (λ x. (x.0, x.1.now)) result (spec.shown_at tokens.now) }
{
    if next_is(tokens, Kind::Star) {
        let rest = word(tokens, Kind::Star)?;
        Ok((Shown::All, rest))
    } else {
        let (first, rest) = item(alloc, tokens)?;
        let (found, rest) = more_items(alloc, first, rest)?;
        Ok((Shown::Items(found), rest))
    }
}
