// The fields and the bags of a header, one after the other in the order of their names.
ghost use Rattle.std.specs.Prelude.{◌≡◌, [], ◌∷◌, MatchOption};
ghost use Rattle.ori_value.specs.View.{fields_of};
ghost use Rattle.ori_record.specs.Seen.{own_left, own_of};
ghost use Rattle.ori_record.specs.Writable.{merged};

use crate::bag_field::BagField;
use crate::bag_fields::comes_before;
use ori_bytes::Text;
use ori_value::Value;

// A field of a header: a name with a value, or a bag.
#[derive(Drop)]
pub(crate) enum Field<'a> {
    Plain(&'a str, &'a Value),
    Bagged(&'a BagField),
}

// Fields and bags that are left, both in the order of their names.
#[derive(Clone, Copy)]
pub(crate) struct Own<'a> {
    pairs: &'a [(Text, Value)],
    bags: &'a [BagField],
}

impl<'a> Own<'a> {
    // All of them.
    pub(crate) fn new(pairs: &'a [(Text, Value)], bags: &'a [BagField]) -> Own<'a>
        ensures { own_left result ≡ merged (fields_of pairs.now) bags.now }
    {
        Own { pairs, bags }
    }

    // The first that is left, which then is left no more.
    pub(crate) fn next(&mut self) -> Option<Field<'a>>
        ensures { MatchOption result (own_left self.old ≡ []) (λ f. own_left self.old ≡ own_of f ∷ own_left self.new) }
    {
        let Some(((name, value), pairs)) = self.pairs.split_first() else {
            let (bag, bags) = self.bags.split_first()?;
            self.bags = bags;
            return Some(Field::Bagged(bag));
        };
        if let Some((bag, bags)) = self.bags.split_first() {
            if comes_before(bag, name.as_str()) {
                self.bags = bags;
                return Some(Field::Bagged(bag));
            }
        }
        self.pairs = pairs;
        Some(Field::Plain(name.as_str(), value))
    }
}
