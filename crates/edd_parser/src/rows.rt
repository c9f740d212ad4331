//! Rows: elements one after the other in braces.

ghost use Rattle.std.specs.Prelude.{◌≤◌, ℕ, List, map};
ghost use Rattle.edd_syntax.specs.Token.{Token};
ghost use Rattle.edd_grammar.specs.Reading.{Read};
ghost use Rattle.edd_grammar.specs.WordReading.{braced, row_inside};
ghost use Rattle.edd_expression_parser.specs.Shortening.{Shortens};
ghost use Rattle.edd_token_reader.specs.Views.{Gives};

use edd_syntax::symbols::Symbol;
use edd_token_reader::cursor::Cursor;
use edd_token_reader::fault::ParseFault;

/// What may be between braces any number of times, and how it is read.
pub trait RowElement: Sized + Drop {
    ghost Pure: { Type 0 };

    ghost view: { Self → Pure };

    ghost read: { ℕ → List Token → Read Pure };

    /// One of them, of at most this height.
    fn read_element(cursor: &mut Cursor, height_left: u32) -> Result<Self, ParseFault>
        requires { height_left ≤ 100 }
        ensures { Gives view result cursor.new (read height_left cursor.old) };

    /// It takes a token at least.
    ghost shortens: { (height_left : ℕ) → Shortens (read height_left) };
}

// The elements up to the closing brace.
#[tactic(auto, unfolding(edd_grammar::specs::WordReading::row_inside), using(crate::proofs::RowLoops::elements_read))]
fn row<T: RowElement>(cursor: &mut Cursor, height_left: u32) -> Result<Vec<T>, ParseFault>
    requires { height_left ≤ 100 }
    ensures { Gives (λ v. map T.view v.items) result cursor.new
        (row_inside (T.read height_left) cursor.old) }
{
    let mut all = Vec::new(cursor.alloc());
    while !cursor.at(Symbol::CloseBrace) {
        all.push(T::read_element(cursor, height_left)?)?;
    }
    all.shrink_to_fit();
    Ok(all)
}

/// Elements in braces, each of at most this height.
#[tactic(auto, unfolding(edd_grammar::specs::WordReading::braced))]
pub fn braced_row<T: RowElement>(
    cursor: &mut Cursor,
    height_left: u32,
) -> Result<Vec<T>, ParseFault>
    requires { height_left ≤ 100 }
    ensures { Gives (λ v. map T.view v.items) result cursor.new
        (braced (row_inside (T.read height_left)) cursor.old) }
{
    cursor.expect(Symbol::OpenBrace)?;
    let all = row(cursor, height_left)?;
    cursor.expect(Symbol::CloseBrace)?;
    Ok(all)
}
