// Tests with parts in the place of variables. A variable that no part has stands for the first; it has a fault, so it is never used.
ghost use Rattle.std.specs.Prelude.{◌≡◌};
ghost use Rattle.sense.specs.Drafted.{part_number, binding_in, item_resolved, side_resolved, test_resolved};

use crate::parts::Parts;
use grammar::{Item, Name, Side, Test};

impl Parts {
    fn number_of(&self, letter: u8) -> u8
        ensures { result ≡ part_number (binding_in self.now letter) }
    {
        self.binding(letter).map_or(0, |binding| binding.part)
    }

    fn resolve_item(&self, item: Item<Name>) -> Item<u8>
        ensures { result ≡ item_resolved self.now item }
    {
        match item {
            Item::Reading(name, reading) => Item::Reading(self.number_of(name.letter), reading),
            Item::Number(value) => Item::Number(value),
        }
    }

    fn resolve_side(&self, side: Side<Name>) -> Side<u8>
        ensures { result ≡ side_resolved self.now side }
    {
        match side {
            Side::Alone(item) => Side::Alone(self.resolve_item(item)),
            Side::Sum(left, right) => Side::Sum(self.resolve_item(left), self.resolve_item(right)),
            Side::Difference(left, right) => Side::Difference(
                self.resolve_item(left),
                self.resolve_item(right),
            ),
        }
    }

    pub(crate) fn resolve_test(&self, test: Test<Name>) -> Test<u8>
        ensures { result ≡ test_resolved self.now test }
    {
        Test {
            left: self.resolve_side(test.left),
            comparison: test.comparison,
            right: self.resolve_side(test.right),
        }
    }
}
