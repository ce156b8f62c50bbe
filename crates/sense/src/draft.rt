// The draft of a query.
ghost use Rattle.std.specs.Prelude.{◌≡◌};
ghost use Rattle.sense.specs.Drafted.{no_draft, with_fault, part_begun, kind_added, part_ended, parts_ended, with_clauses, key_asked, clause_begun, clause_ended, joined, name_used, item_used, side_used, part_number, binding_in, item_resolved, side_resolved, test_kept, test_added, window_set};

use crate::clauses::{Clauses, Negatives, Step};
use crate::fault::{SenseFault, earlier};
use crate::parts::{LastPart, Parts};
use events::Kind;
use grammar::{Item, Name, Side, Test};

#[derive(Clone, Copy)]
pub struct Draft {
    pub parts: Parts,
    pub clauses: Clauses,
    pub window: u32,
    pub fault: Option<SenseFault>,
}

impl Draft {
    pub fn new() -> Draft
        ensures { result ≡ no_draft }
    {
        Draft {
            parts: Parts::none(),
            clauses: Clauses::none(),
            window: 0,
            fault: None,
        }
    }

    fn note(&mut self, fault: SenseFault)
        ensures { self.new ≡ with_fault self.old fault }
    {
        self.fault = earlier(self.fault, fault);
    }

    // A part begins.
    pub fn begin_part(&mut self)
        ensures { self.new ≡ part_begun self.old }
    {
        self.parts.clear_kinds();
    }

    // A kind word of the part, at its place.
    pub fn add_kind(&mut self, word: &[u8], place: usize)
        ensures { self.new ≡ kind_added self.old (word.now, place) }
    {
        match Kind::named(word) {
            Some(kind) => self.parts.set_kind(kind),
            None => self.note(SenseFault::UnknownKind(place)),
        }
    }

    // The part's kinds have been read; its first token is at this place, and this is its variable with its own place.
    pub fn end_part(&mut self, place: usize, negative: bool, variable: (u8, usize))
        ensures { self.new ≡ part_ended self.old place negative variable }
    {
        let (letter, letter_place) = variable;
        if self.parts.binding(letter).is_some() {
            self.note(SenseFault::Doubled(letter_place));
        }
        if self.parts.misplaces(negative) {
            self.note(SenseFault::Shape(place));
        }
        self.parts.keep(place, negative, letter);
    }

    // All parts have been read.
    pub fn end_parts(&mut self)
        ensures { self.new ≡ parts_ended self.old }
    {
        if let LastPart::Negative(place) = self.parts.last {
            self.note(SenseFault::Shape(place));
        }
    }

    pub fn ask_key(&mut self)
        ensures { self.new ≡ with_clauses self.old (key_asked self.old.clauses) }
    {
        self.clauses.ask_key();
    }

    pub fn begin_clause(&mut self)
        ensures { self.new ≡ with_clauses self.old (clause_begun self.old.clauses) }
    {
        self.clauses.begin();
    }

    // The clause whose first token is at this place has been read.
    pub fn end_clause(&mut self, place: usize)
        ensures { self.new ≡ clause_ended self.old place }
    {
        if matches!(self.clauses.negatives, Negatives::Several(_)) {
            self.note(SenseFault::TwoNegatives(place));
        }
        self.clauses.keep_end();
    }

    // The last two conditions are joined.
    pub fn join(&mut self, step: Step)
        ensures { self.new ≡ joined self.old step }
    {
        self.clauses.keep_step(step);
    }

    fn use_name(&mut self, name: Name)
        ensures { self.new ≡ name_used self.old name }
    {
        match self.parts.binding(name.letter) {
            None => self.note(SenseFault::Unbound(name.place)),
            Some(binding) if binding.negative => self.clauses.use_negative(name.letter),
            Some(_) => {}
        }
    }

    fn use_item(&mut self, item: Item<Name>)
        ensures { self.new ≡ item_used self.old item }
    {
        if let Item::Reading(name, _) = item {
            self.use_name(name);
        }
    }

    fn use_side(&mut self, side: Side<Name>)
        ensures { self.new ≡ side_used self.old side }
    {
        match side {
            Side::Alone(item) => self.use_item(item),
            Side::Sum(left, right) | Side::Difference(left, right) => {
                self.use_item(left);
                self.use_item(right);
            }
        }
    }

    fn keep_test(&mut self, test: Test<Name>, place: usize)
        ensures { self.new ≡ test_kept self.old test place }
    {
        if self.clauses.tests == 24 {
            self.note(SenseFault::ManyTests(place));
        }
        let test = self.parts.resolve_test(test);
        self.clauses.keep_step(Step::Test(test));
        self.clauses.count_test();
    }

    // A test whose first token is at this place.
    pub fn test(&mut self, test: Test<Name>, place: usize)
        ensures { self.new ≡ test_added self.old test place }
    {
        self.use_side(test.left);
        self.use_side(test.right);
        self.keep_test(test, place);
    }

    // The window, and the place of its number.
    pub fn set_window(&mut self, window: (u32, usize))
        ensures { self.new ≡ window_set self.old window }
    {
        let (window, place) = window;
        self.window = window;
        if !(1..=864_000).contains(&window) {
            self.note(SenseFault::Window(place));
        }
    }
}
