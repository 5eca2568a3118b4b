// Pages that images make dirty.
ghost use Rattle.std.specs.Prelude.{◌≡◌, ℕ, map, OnOk, OnErr};
ghost use Rattle.ori_log.specs.Images.{image_data, AreRising};
ghost use Rattle.ori_cover.specs.Dirty.{Dirty, AreInstalled};
ghost use Rattle.ori_pool.specs.Held.{dirty_with, HaveParts, HavePlaces, HoldsAll, AreOwn, SamePlaces};
ghost use Rattle.ori_pool.specs.Held.{HaveNoMore, HaveFrom};

use crate::Hand;
use ori_bytes::NoMemory;
use ori_log::{ImageList, PageImage};

// Makes a place for each page of these images. No dirty page changes.
pub(crate) fn reserve_all(hand: &mut Hand, images: &[PageImage]) -> Result<(), NoMemory>
    requires held { HaveParts hand.old.parts.items (map image_data images.now) }
    requires rising { AreRising 0 (map image_data images.now) }
    ensures own { AreOwn hand.old.parts.items → AreOwn hand.new.parts.items }
    ensures all { HoldsAll hand.old.parts.items → HoldsAll hand.new.parts.items }
    ensures places { OnOk result (HavePlaces hand.new.parts.items (map image_data images.now)) }
    ensures dirty { (others : Dirty) (q : ℕ)
        → dirty_with others hand.new.parts.items q ≡ dirty_with others hand.old.parts.items q }
    ensures contents { HaveNoMore hand.old.parts.items hand.new.parts.items }
{
    for image in images {
        hand.reserve(image.page)?;
    }
    Ok(())
}

// Makes the pages of these images, which have places, dirty. Takes no memory.
pub(crate) fn install_all(hand: &mut Hand, images: ImageList)
    requires { HavePlaces hand.old.parts.items images }
    ensures slots { SamePlaces hand.old.parts.items hand.new.parts.items }
    ensures installed { (others : Dirty) → AreInstalled images (dirty_with others hand.old.parts.items)
        (dirty_with others hand.new.parts.items) }
    ensures contents { HaveFrom images hand.old.parts.items hand.new.parts.items }
{
    for image in images.into_vec() {
        let PageImage { page, content } = image;
        hand.install(page, content);
    }
}

/// Makes the pages of these images, whose partitions the hand holds, dirty, as those of an opening's tail are. If out
/// of memory no dirty page has changed.
pub fn install_images(hand: &mut Hand, images: ImageList) -> Result<(), NoMemory>
    requires held { HaveParts hand.old.parts.items images }
    requires rising { AreRising 0 images }
    ensures own { AreOwn hand.old.parts.items → AreOwn hand.new.parts.items }
    ensures all { HoldsAll hand.old.parts.items → HoldsAll hand.new.parts.items }
    ensures installed { OnOk result ((others : Dirty) → AreInstalled images (dirty_with others hand.old.parts.items)
        (dirty_with others hand.new.parts.items)) }
    ensures contents { OnOk result (HaveFrom images hand.old.parts.items hand.new.parts.items) }
    ensures dirty { OnErr result ((others : Dirty) (q : ℕ)
        → dirty_with others hand.new.parts.items q ≡ dirty_with others hand.old.parts.items q) }
    ensures no_more { OnErr result (HaveNoMore hand.old.parts.items hand.new.parts.items) }
{
    let Ok(()) = reserve_all(hand, images.as_slice()) else {
        return Err(NoMemory);
    };
    install_all(hand, images);
    Ok(())
}
