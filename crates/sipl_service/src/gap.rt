ghost use Rattle.std.specs.Prelude.{None, IfSome, IfNone};
ghost use Rattle.std.specs.Bool.{Decides};
ghost use Rattle.std.specs.Option.{option_copied};
ghost use Rattle.sipl_book.specs.Pages.{AreInOrder, Follows};
ghost use Rattle.sipl_service.specs.Gaps.{IsGap};

use sipl_book::Page;

// The place of the first page that does not follow the one before it.
pub(crate) fn first_gap(pages: &[Page]) -> Option<usize>
    ensures gap { IfSome result (IsGap None pages.now) }
    ensures none { IfNone result (AreInOrder None pages.now) }
{
    let mut before = None;
    for (place, page) in pages.iter().enumerate() {
        if !does_follow(page, before) {
            return Some(place);
        }
        before = Some(page);
    }
    None
}

// Whether the page follows the one before it; where there is none, whether it is a first one.
fn does_follow(page: &Page, before: Option<&Page>) -> bool
    ensures { Decides result (Follows (option_copied before.entry) page.now) }
{
    match before {
        Some(before) => page.follows(before),
        None => page.is_first(),
    }
}
