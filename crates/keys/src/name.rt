// Names: what the counter and the app write for a member.
ghost use Rattle.std.specs.Prelude.{◌≡◌, ℕ, ◌<◌, ◌≤◌, List, length, sum, MatchOption};
ghost use Rattle.keys.specs.Name.{allowed, all_allowed, IsName, name_answer, identity_of, shelf_of, same_points, OneName, AcuteE, TextsAllowed};
ghost use Rattle.std.specs.Str.{chars};
ghost use Rattle.std.proofs.Common.{rules, sym};
ghost use Rattle.std.proofs.lemmas.Slice.Eq.{bytes_eq-Decides};

use crate::key::Key;
use crate::letters::letter_of;
use crate::points::Points;
use refusals::Refusal;
use std::marker::Model;

// A spelling, as it was given. Beside it stand the identity and the shelf, so that comparing two names takes nothing apart.
#[derive(Clone, Copy)]
pub struct Name {
    spelling: Points<24>,
    identity: Points<48>,
    shelf: u8,
}

// A clause sees a name as its spelling.
impl Model for Name {
    ghost Value = { List ℕ };

    ghost view = { λ n. n.spelling };

    ghost invariant = { λ n. IsName n.spelling × (n.identity ≡ identity_of n.spelling) × (n.shelf ≡ shelf_of n.spelling) };

    ghost inverse = { λ s. record { spelling = s; identity = identity_of s; shelf = shelf_of s } };

    ghost inverse_ok = { λ n h i. record { spelling = n.spelling; identity = sym h.1 i; shelf = sym h.2 i } };
}

impl Name {
    // The largest number of code points in a spelling. Each may be taken apart into two.
    pub const MAX: usize = 24;

    // No `TryFrom` or `FromStr` beside the next two, which would be second names for them.

    // The name with these code points. Refused where there are none or more than 24, and then where one is not allowed.
    pub fn new(points: &[u32]) -> Result<Name, Refusal>
        ensures { result ≡ name_answer points.now }
    {
        if points.is_empty() || points.len() > Name::MAX {
            return Err(Refusal::NameLength);
        }
        if !are_allowed(points) {
            return Err(Refusal::CodePoint);
        }
        let spelling = Points::from_slice(points);
        let identity = decompose(points);
        let shelf = (total(identity.as_slice()) % 16) as u8;
        Ok(Name {
            spelling,
            identity,
            shelf,
        })
    }

    // The name that a text spells, refused like its code points.
    pub fn from_text(text: &str) -> Result<Name, Refusal>
        ensures { result ≡ name_answer (chars text.now) }
    {
        let points = points_of(text).ok_or(Refusal::NameLength)?;
        Name::new(points.as_slice())
    }

    // The code points of the name, as they were given.
    pub fn spelling(&self) -> &[u32]
        ensures value { result.now ≡ self.now }
        ensures name { IsName result.now }
    {
        self.spelling.as_slice()
    }

    // The code points of the name, taken apart.
    pub fn identity(&self) -> &[u32]
        ensures { result.now ≡ identity_of self.now }
    {
        self.identity.as_slice()
    }
}

// The code points of a text, if there are at most 24. A loop, since a chain has nothing to collect in without a heap.
fn points_of(text: &str) -> Option<Points<24>>
    ensures { MatchOption result (24 < length (chars text.now)) (λ p. p ≡ chars text.now) }
{
    let mut points = Points::new();
    for point in text.chars() {
        if points.is_full() {
            return None;
        }
        points.push(u32::from(point));
    }
    Some(points)
}

fn is_allowed(point: u32) -> bool
    ensures { result ≡ allowed point }
{
    char::from_u32(point).is_some()
}

fn are_allowed(points: &[u32]) -> bool
    ensures { result ≡ all_allowed points.now }
{
    points.iter().all(|point| is_allowed(*point))
}

// The identity: each letter of the table is written as its base and its mark.
fn decompose(points: &[u32]) -> Points<48>
    requires { length points.now ≤ 24 }
    ensures { result ≡ identity_of points.now }
{
    let mut identity = Points::new();
    for point in points {
        match letter_of(*point) {
            Some(letter) => {
                identity.push(letter.base);
                identity.push(letter.mark);
            }
            None => identity.push(*point),
        }
    }
    identity
}

fn total(points: &[u32]) -> u64
    requires { length points.now ≤ 48 }
    ensures { result ≡ sum points.now }
{
    points.iter().map(|point| u64::from(*point)).sum()
}

impl Key for Name {
    ghost Identity = { List ℕ };

    ghost identity = { identity_of };

    ghost alike = { λ a b. same_points (identity_of a) (identity_of b) };

    ghost shelved = { shelf_of };

    ghost sound = { λ a b e. (bytes_eq-Decides _ _).0 e };

    ghost complete = { λ a b e. (bytes_eq-Decides _ _).1 e };

    ghost below = { Prim.search rules };

    ghost together = { Prim.search rules };

    fn same(&self, other: &Name) -> bool {
        self.identity() == other.identity()
    }

    fn shelf(&self) -> u8 {
        self.shelf
    }
}

// Two spellings have one identity exactly where letters written as base and mark, or back, turn one into the other.
pub fn one_name_is_respelled()
    ensures { OneName }
{}

// The worked example of two spellings: they are one name, on shelf 6.
pub fn acute_e_is_one_name()
    ensures { AcuteE }
{}

// A text never has a code point that a name may not have.
pub fn texts_are_allowed()
    ensures { TextsAllowed }
{}
