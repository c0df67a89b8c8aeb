// The items of a shape: which of its bytes are places for values (specs/Shape.antt). Reading and writing both go by this.
ghost use Rattle.std.specs.Prelude.{◌≡◌};
ghost use Rattle.text.specs.Shape.{item_of};
ghost use Rattle.text.specs.Items.{item_in};

// A place for a number, a tag, a word or a kind.
#[derive(Clone, Copy, Debug, PartialEq, Eq)]
pub enum Place {
    Number,
    Tag,
    Word,
    Kind,
}

// A place; or a byte that stands for itself.
#[derive(Clone, Copy, Debug, PartialEq, Eq)]
pub enum Item {
    Place(Place),
    Byte(u8),
}

impl Item {
    // The item of a shape's byte.
    #[tactic(auto, unfolding(crate::specs::Shape::item_of))]
    pub fn of(c: u8) -> Item
        ensures { item_in result ≡ item_of c }
    {
        match c {
            b'#' => Item::Place(Place::Number),
            b'$' => Item::Place(Place::Tag),
            b'%' => Item::Place(Place::Word),
            b'?' => Item::Place(Place::Kind),
            _ => Item::Byte(c),
        }
    }
}
