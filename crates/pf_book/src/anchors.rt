//! Which anchors a Book has.
ghost use Rattle.std.specs.Prelude.{◌≡◌, IfOk};
ghost use Rattle.pf_book.specs.{Anchors.{anchors_below}, Books.{world_book}};

use crate::book::Book;
use crate::chapter::Chapter;
use pf_anchor::Path;
use pf_disk::Disk;
use pf_view::Publisher;
use std::alloc::AllocError;

impl<D: Disk + Drop, J: Chapter, S: Publisher<J> + Drop> Book<D, J, S> {
    /// The anchors directly below a path: the paths of one component more that have rules, in the order of their bytes (pfctl(8), -s
    /// Anchors). It makes no call of the device, and tells them after a fault too. `AllocError`: nothing is made.
    pub fn anchors_below(&self, path: &Path) -> Result<Vec<Path>, AllocError>
        ensures { IfOk result (λ v. v.items ≡ anchors_below (world_book self.now) path.now) }
    {
        self.durable().config().children(self.alloc(), path)
    }
}
