// Posting and lifting notices, each call printed with its reply.
ghost use Rattle.std.specs.Prelude.{◌≡◌};
ghost use Rattle.layers.specs.Notices.{after_post, after_lift};

use books::book::Book;
use layers::notices::{Notice, Noticed};
use layers::replies::Reply;
use std::io;

// Two functions: one for both calls would take six parameters for its two lines.
pub fn post<B: Book>(rt: &HostRuntime, book: &mut Noticed<B>, notice: Notice) -> io::Result<()>
    ensures { book.new.notices.items ≡ after_post (B.Book.gates book.old.book) book.old.notices.items notice }
{
    let outcome = book.post(notice).map(|()| "posted");
    println!(rt; "post {notice}: {}", Reply { outcome })
}

pub fn lift<B: Book>(rt: &HostRuntime, book: &mut Noticed<B>, notice: Notice) -> io::Result<()>
    ensures { book.new.notices.items ≡ after_lift book.old.notices.items notice }
{
    let outcome = book.lift(notice).map(|()| "lifted");
    println!(rt; "lift {notice}: {}", Reply { outcome })
}
