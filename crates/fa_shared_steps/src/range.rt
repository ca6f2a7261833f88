//! The bytes that a request is about.
ghost use Rattle.std.specs.Prelude.{◌≡◌, ◌+◌, ◌*◌, ◌/◌, ◌-◌, ◌^◌, ◌≤◌, min};

/// Bytes of a store, from an offset to before another.
#[derive(Clone, Copy)]
pub struct Range {
    /// How many bytes a page has.
    pub page_bytes: u64,
    /// The offset of the first byte.
    pub from: u64,
    /// The offset behind the last byte.
    pub to: u64,
}

impl Range {
    ghost use Rattle.fa_shared_steps.specs.Ranges.{IsRange, covers as rule_covers, begins_at as rule_begins, bytes_in as rule_in};
    ghost use Rattle.fa_shared_steps.specs.Ranges.{first_page as rule_first, past_page as rule_past};

    /// The first page with a byte of the range. Of no bytes, the page that they would be in.
    pub fn first_page(&self) -> u64
        requires { IsRange self.now }
        ensures { result ≡ rule_first self.now }
    {
        self.from / self.page_bytes
    }

    /// The page behind the last one with a byte of the range. Of no bytes, the first page.
    pub fn past_page(&self) -> u64
        requires { IsRange self.now }
        ensures { result ≡ rule_past self.now }
    {
        if self.from == self.to {
            self.from / self.page_bytes
        } else {
            (self.to - 1) / self.page_bytes + 1
        }
    }

    /// Whether each byte of the page is in the range.
    pub fn covers(&self, page: u64) -> bool
        requires { IsRange self.now }
        ensures { result ≡ rule_covers self.now page }
    {
        let begin = page.saturating_mul(self.page_bytes);
        self.from <= begin && begin < self.to && self.page_bytes <= self.to - begin
    }

    /// Where the range begins in the page.
    pub fn begins_at(&self, page: u64) -> usize
        requires { IsRange self.now }
        ensures { result ≡ rule_begins self.now page }
    {
        let begin = page.saturating_mul(self.page_bytes);
        self.from.saturating_sub(begin) as usize
    }

    /// How many bytes of the page are in the range.
    pub fn bytes_in(&self, page: u64) -> usize
        requires { IsRange self.now }
        ensures { result ≡ rule_in self.now page }
    {
        let begin = page.saturating_mul(self.page_bytes);
        let end = self.page_bytes.min(self.to.saturating_sub(begin));
        end.saturating_sub(self.from.saturating_sub(begin)) as usize
    }

    /// Where the page's bytes begin among the bytes of the range. No offset is told that is above 2^64 - 1.
    pub fn offset_of(&self, page: u64) -> usize
        requires { IsRange self.now }
        ensures { result ≡ min (page * self.now.page_bytes) (2 ^ 64 - 1) - self.now.from }
    {
        let begin = page.saturating_mul(self.page_bytes);
        begin.saturating_sub(self.from) as usize
    }
}
