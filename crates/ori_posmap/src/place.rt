// Places of records, and the entries of a map page.
ghost use Rattle.std.specs.Prelude.{◌≡◌};
ghost use Rattle.ori_posmap.specs.Bytes.{entry_bytes};
ghost use Rattle.ori_posmap.specs.Maps.{entry_for, place_in, EntryFits};

// The states of a position that was given.
pub(crate) const LIVE: u8 = 1;

pub(crate) const GONE: u8 = 2;

/// Where a record stands: the page and the slot of its first chunk, and how many bytes it has.
#[derive(Clone, Copy)]
pub struct Place {
    /// The number of the page.
    pub page: u32,
    /// The number of the slot on it.
    pub slot: u16,
    /// How many bytes the record has.
    pub bytes: u32,
}

// What a map page has for a position that was given.
#[derive(Clone, Copy)]
pub(crate) struct Entry {
    pub live: bool,
    pub place: Place,
}

impl Entry {
    // The entry of a position that is live with this place, or gone.
    pub(crate) fn of(place: Option<Place>) -> Entry
        ensures value { result ≡ entry_for place }
        ensures fits { EntryFits result }
    {
        match place {
            Some(place) => Entry { live: true, place },
            None => Entry {
                live: false,
                place: Place {
                    page: 0,
                    slot: 0,
                    bytes: 0,
                },
            },
        }
    }

    // The place of a live position.
    pub(crate) fn place(&self) -> Option<Place>
        ensures { result ≡ place_in self.now }
    {
        if self.live { Some(self.place) } else { None }
    }

    // Its bytes on a map page.
    pub(crate) fn spelled(&self) -> [u8; 16]
        ensures { result ≡ entry_bytes self.now }
    {
        let state = if self.live { LIVE } else { GONE };
        let [s0, s1] = self.place.slot.to_be_bytes();
        let [p0, p1, p2, p3] = self.place.page.to_be_bytes();
        let [b0, b1, b2, b3] = self.place.bytes.to_be_bytes();
        [state, 0, s0, s1, p0, p1, p2, p3, b0, b1, b2, b3, 0, 0, 0, 0]
    }
}
