//! The printing of a certificate text.
ghost use Rattle.std.specs.Prelude.{◌≡◌, [], ◌∷◌, ◌++◌, List, map, IfOk, OnOk, string_bytes};
ghost use Rattle.std.specs.List.Sorted.{IsNonDecreasing, IsPermutation};
ghost use Rattle.fa_texts.specs.CertificateText.{IsPrinted, PrintsCertificate, place_line, rounds_line, short_lines};
ghost use Rattle.fa_texts.specs.Text.{PrintsLines};

use crate::line_print::{print_three, push_number};
use fa_batch::{Plan, Shortage};
use fa_batch_terms::Place;
use fa_types::Page;
use std::alloc::{AllocError, Allocator};

/// The text of a plan and a shortage, its places and its pages by rising page. What has a text is read
/// back from it.
pub fn print<A: Allocator + Copy>(
    alloc: A,
    plan: &Plan<A>,
    shortage: &Shortage<A>,
) -> Result<String<A>, AllocError>
    ensures { IfOk result (λ out. IsPrinted plan.now.rounds plan.now.places shortage.now (string_bytes out)) }
{
    let mut out = String::new(alloc);
    print_certificate(alloc, &mut out, plan, shortage)?;
    Ok(out)
}

/// Adds the text of a plan and a shortage.
pub(crate) fn print_certificate<A: Allocator + Copy>(
    alloc: A,
    out: &mut String<A>,
    plan: &Plan<A>,
    shortage: &Shortage<A>,
) -> Result<(), AllocError>
    ensures { OnOk result (PrintsCertificate plan.now.rounds plan.now.places shortage.now (string_bytes out.old) (string_bytes out.new)) }
{
    let places = places_by_page(alloc, plan.places.as_slice())?;
    let pages = rising_pages(alloc, shortage.as_slice())?;
    print_rounds(out, plan.rounds)?;
    print_places(out, &places)?;
    print_short(out, &pages)?;
    out.push_str("end\n")?;
    Ok(())
}

/// Copies of these places, by rising page.
fn places_by_page<A: Allocator>(alloc: A, places: &[Place]) -> Result<Vec<Place, A>, AllocError>
    ensures same { IfOk result (λ copies. IsPermutation places.now copies.items) }
    ensures rising { IfOk result (λ copies. IsNonDecreasing (map (λ x. x.page.0) copies.items)) }
{
    let mut copies = Vec::from_slice(alloc, places)?;
    copies.sort_unstable_by_key(|x| x.page.0);
    Ok(copies)
}

/// Copies of these pages, rising.
fn rising_pages<A: Allocator>(alloc: A, pages: &[Page]) -> Result<Vec<Page, A>, AllocError>
    ensures same { IfOk result (λ copies. IsPermutation pages.now copies.items) }
    ensures rising { IfOk result (λ copies. IsNonDecreasing (map (λ p. p.0) copies.items)) }
{
    let mut copies = Vec::from_slice(alloc, pages)?;
    copies.sort_unstable_by_key(|p| p.0);
    Ok(copies)
}

/// Adds the line of the rounds of a plan.
fn print_rounds<A: Allocator>(out: &mut String<A>, rounds: u64) -> Result<(), AllocError>
    ensures { OnOk result (PrintsLines (string_bytes out.old) (string_bytes out.new) (rounds_line rounds ∷ [])) }
{
    out.push_str("rounds")?;
    push_number(out, rounds)?;
    out.push_str("\n")?;
    Ok(())
}

/// Adds a line for each place.
fn print_places<A: Allocator>(out: &mut String<A>, places: &[Place]) -> Result<(), AllocError>
    ensures { OnOk result (PrintsLines (string_bytes out.old) (string_bytes out.new) (map place_line places.now)) }
{
    for place in places {
        print_place(out, place)?;
    }
    Ok(())
}

/// Adds the line of a place.
fn print_place<A: Allocator>(out: &mut String<A>, place: &Place) -> Result<(), AllocError>
    ensures { OnOk result (PrintsLines (string_bytes out.old) (string_bytes out.new) (place_line place.now ∷ [])) }
{
    let die = place.die.0.into();
    print_three(out, "place", place.page.0, die, place.round.0)?;
    Ok(())
}

/// Adds the line of a shortage of these pages, if there are any.
fn print_short<A: Allocator>(out: &mut String<A>, pages: &[Page]) -> Result<(), AllocError>
    ensures { OnOk result (PrintsLines (string_bytes out.old) (string_bytes out.new) (short_lines pages.now)) }
{
    if pages.is_empty() {
        return Ok(());
    }
    out.push_str("short")?;
    for page in pages {
        push_number(out, page.0)?;
    }
    out.push_str("\n")?;
    Ok(())
}
