// What a page's place holds.
ghost use Rattle.std.specs.Prelude.{◌≡◌};

use ori_page::Page;

/// A place among the dirty pages: a dirty page with its mark, or none.
#[derive(Drop)]
pub struct Place {
    pub content: Option<Page>,
    /// Whether the content has been written to the page's home. Not where there is no content.
    pub written: bool,
}

impl Place {
    ghost use Rattle.ori_part.specs.Parts.{is_unwritten, written_in, settled_in};

    /// Whether it has a dirty page that isn't written.
    pub fn is_unwritten(&self) -> bool
        ensures { result ≡ is_unwritten self.now }
    {
        self.content.is_some() && !self.written
    }

    // Gives the content of a written page and is bare after it; any other place stays as it is.
    pub(crate) fn settle(&mut self) -> Option<Page>
        ensures content { result ≡ written_in self.old }
        ensures place { self.new ≡ settled_in self.old }
    {
        if !self.written {
            return None;
        }
        self.written = false;
        self.content.take()
    }
}
