// How an element is coded.
ghost use Rattle.std.specs.Prelude.{◌≡◌};
ghost use Rattle.element.specs.Codings.{Coding};

// An element: its width in bits, and the codes of its values.
pub trait Element: Sized {
    ghost coding: { Coding Self };

    fn width() -> usize
        ensures { result ≡ coding.width };

    fn from_code(code: u64) -> Option<Self>
        ensures { result ≡ coding.table.listed code };

    fn code(&self) -> u64
        ensures { result ≡ coding.table.code self.now };
}
