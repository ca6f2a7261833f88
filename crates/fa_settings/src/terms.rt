//! On what terms the images of an array are taken.
ghost use Rattle.std.specs.Prelude.{◌≡◌};
ghost use Rattle.fa_settings.specs.Terms.{is_whole as whole_terms, leaves_aside as images_left};

/// On what terms the images of an array are taken.
#[derive(Clone, Copy)]
pub enum Terms {
    /// The array was closed, and its images are all there.
    Closed,
    /// It may be one that was not closed, but each die that was in use at last has its image.
    Whole,
    /// It may be one that was not closed, and images may be missing.
    Unclean,
}

impl Terms {
    /// Whether an image that cannot be had is left aside.
    pub fn leaves_aside(self) -> bool
        ensures { result ≡ images_left self }
    {
        match self {
            Terms::Closed => false,
            Terms::Whole | Terms::Unclean => true,
        }
    }

    /// Whether the images of all dies that were in use have to be there.
    pub fn is_whole(self) -> bool
        ensures { result ≡ whole_terms self }
    {
        match self {
            Terms::Whole => true,
            Terms::Closed | Terms::Unclean => false,
        }
    }
}
