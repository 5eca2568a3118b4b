// What a commit hands to the log.
ghost use Rattle.std.specs.Prelude.{◌≡◌, ◌++◌, [], ◌∷◌, length, map, ◌<◌, OnOk, OnErr};
ghost use Rattle.std.specs.List.{AllByRecursion};
ghost use Rattle.ori_log.specs.Images.{image_data, IsWhole};

use ori_bytes::NoMemory;
use ori_page::Page;
use std::alloc::Global;
use std::marker::Model;

/// A page as a commit leaves it.
#[derive(Drop)]
pub struct PageImage {
    /// The number of the page, below 2^20.
    pub page: u32,
    pub content: Page,
}

impl PageImage {
    /// The bytes of the content.
    pub fn bytes(&self) -> &[u8]
        ensures value { result.now ≡ self.now.content }
        ensures whole { IsWhole (image_data self.now) }
    {
        each_below_256(self.content.bytes())
    }
}

// The slice itself, of which each element is a byte.
fn each_below_256(bytes: &[u8]) -> &[u8]
    ensures value { result.now ≡ bytes.now }
    ensures each { AllByRecursion (λ b. b < 256) bytes.now }
{
    bytes
}

// Each content is a whole page.
fn all_whole(images: &[PageImage])
    ensures { AllByRecursion IsWhole (map image_data images.now) }
{
    for image in images {
        let _bytes = image.bytes();
    }
}

/// A list of pages as a commit leaves them.
#[derive(Drop)]
pub struct ImageList {
    images: Vec<PageImage>,
}

impl Model for ImageList {
    ghost use Rattle.std.specs.Prelude.{List, map};
    ghost use Rattle.ori_log.specs.Log.{ImageData};
    ghost use Rattle.std.specs.List.{AllByRecursion};
    ghost use Rattle.ori_log.specs.Images.{image_data, IsWhole};

    ghost Value = { List ImageData };

    ghost view = { λ l. map image_data l.images.items };

    ghost invariant = { λ l. AllByRecursion IsWhole (map image_data l.images.items) };
}

impl ImageList {
    /// The empty list; takes no memory.
    pub fn new(alloc: Global) -> Self
        ensures { result ≡ [] }
    {
        ImageList {
            images: Vec::new(alloc),
        }
    }

    /// Owns a `Vec`; takes no memory.
    pub fn from_vec(images: Vec<PageImage>) -> Self
        ensures { result ≡ map image_data images.items }
    {
        all_whole(&images);
        ImageList { images }
    }

    /// Gives the `Vec` back.
    pub fn into_vec(self) -> Vec<PageImage>
        ensures { map image_data result.items ≡ self }
    {
        self.images
    }

    /// Adds an image at the end. Where memory is wanting the list is unchanged, and the image is let go.
    pub fn push(&mut self, image: PageImage) -> Result<(), NoMemory>
        ensures ok { OnOk result (self.new ≡ self.old ++ image_data image ∷ []) }
        ensures err { OnErr result (self.new ≡ self.old) }
    {
        // Each content is a whole page.
        let _bytes = image.bytes();
        self.images.push(image)?;
        Ok(())
    }

    /// The number of images.
    pub fn len(&self) -> usize
        ensures value { result ≡ length self.now }
        ensures whole { AllByRecursion IsWhole self.now }
    {
        self.images.len()
    }

    /// The images.
    pub fn as_slice(&self) -> &[PageImage]
        ensures { map image_data result.now ≡ self.now }
    {
        self.images.as_slice()
    }
}
