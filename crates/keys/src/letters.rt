// The accented letters of Latin-1, each with the base letter and the combining mark that it is made of.
ghost use Rattle.std.specs.Prelude.{◌≡◌, IsTrue};
ghost use Rattle.keys.specs.Letters.{table, found, rises, Ascending, Closed};

use crate::latin::LETTERS;

// A letter that stands for a base letter and a mark, all three as code points.
#[derive(Clone, Copy)]
pub struct Letter {
    pub composed: u32,
    pub base: u32,
    pub mark: u32,
}

// The entry for a letter of the table.
#[tactic(auto, unfolding(crate::specs::Letters::table))]
pub fn letter_of(point: u32) -> Option<Letter>
    ensures { result ≡ found table point }
{
    search(&LETTERS, point)
}

// The entry for a letter among letters that ascend.
fn search(letters: &[Letter], point: u32) -> Option<Letter>
    requires { IsTrue (rises letters.now) }
    ensures { result ≡ found letters.now point }
{
    let at = letters
        .binary_search_by_key(&point, |letter| letter.composed)
        .ok()?;
    Some(letters[at])
}

// The table's rule: it ascends, and nothing that it puts in the place of a letter is a letter of the table.
pub fn table_is_sound()
    ensures { (Ascending table) × (Closed table) }
{}
