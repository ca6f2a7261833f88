//! Whether no two pages of a list are the same.
ghost use Rattle.std.specs.Prelude.{◌≡◌, ◌==◌, map, true};
ghost use Rattle.std.specs.List.{list_any};
ghost use Rattle.fa_machine.specs.Step.{is_distinct};

use fa_types::Page;

/// Whether no two of these pages are the same. It takes a look at each page where they rise.
pub(crate) fn are_distinct(pages: &[Page]) -> bool
    ensures { result ≡ is_distinct (map (λ page. page.0) pages.now) }
{
    is_rising(pages) || are_apart(pages)
}

/// Whether each page is above the one before it, so that no two are the same.
fn is_rising(pages: &[Page]) -> bool
    ensures { result ≡ true → is_distinct (map (λ page. page.0) pages.now) ≡ true }
{
    for i in 1..pages.len() {
        if pages[i].0 <= pages[i - 1].0 {
            return false;
        }
    }
    true
}

/// Whether no two of these pages are the same. It compares each page with those behind it.
fn are_apart(pages: &[Page]) -> bool
    ensures { result ≡ is_distinct (map (λ page. page.0) pages.now) }
{
    for i in 0..pages.len() {
        if is_one_of_these(&pages[i + 1..], pages[i]) {
            return false;
        }
    }
    true
}

/// Whether the page is one of these.
fn is_one_of_these(pages: &[Page], page: Page) -> bool
    ensures { result ≡ list_any (λ p. p.0 == page.0) pages.now }
{
    pages.iter().any(|p| p.0 == page.0)
}
