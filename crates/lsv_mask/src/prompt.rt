ghost use Rattle.std.specs.Prelude.{◌≡◌, ℕ, List};
ghost use Rattle.lsv_mask.specs.Masking.{prompted};

use lsv_base::{Bytes, List};
use memchr::memmem;

/// A search for texts in bytes.
pub trait Search {
    ghost use Rattle.std.specs.Prelude.{ℕ, List, Bool};

    /// What the search answers of these texts and bytes.
    ghost answers: { Self → List (List ℕ) → List ℕ → Bool };

    /// Searches the bytes for the texts.
    fn search(&self, texts: &List<Bytes>, bytes: &[u8]) -> bool
        ensures { result ≡ answers self.now texts.now bytes.now };
}

impl<H: Search> Search for &H {
    ghost answers = { λ s. H.answers s.now };

    fn search(&self, texts: &List<Bytes>, bytes: &[u8]) -> bool {
        (**self).search(texts, bytes)
    }
}

/// A search that answers whether a password is prompted for: whether one of the texts stands somewhere in the bytes.
/// Its type keeps that it answers so on all texts and bytes.
#[derive(Debug, Drop)]
pub struct Prompt<H: Search> {
    pub search: H,
    ghost is_right: { (texts : List (List ℕ)) (bytes : List ℕ) → H.answers search texts bytes ≡ prompted texts bytes },
}

impl<H: Search> Prompt<H> {
    /// A search that answers so.
    pub fn new(search: H) -> Self
        requires { (texts : List (List ℕ)) (bytes : List ℕ) → H.answers search texts bytes ≡ prompted texts bytes }
        ensures { result.search ≡ search }
    {
        Prompt { search }
    }

    /// The same by reference, for several users.
    pub fn by_ref(&self) -> Prompt<&H>
        ensures { result.search.now ≡ self.now.search }
    {
        Prompt {
            search: &self.search,
        }
    }

    /// Whether one of the texts stands somewhere in the bytes.
    pub fn is_prompted(&self, texts: &List<Bytes>, bytes: &[u8]) -> bool
        ensures { result ≡ prompted texts.now bytes.now }
    {
        self.search.search(texts, bytes)
    }
}

/// The search for texts that is linear in the bytes.
#[derive(Clone, Copy, Debug)]
pub struct TextSearch;

impl Search for TextSearch {
    ghost answers = { λ _ texts bytes. prompted texts bytes };

    fn search(&self, texts: &List<Bytes>, bytes: &[u8]) -> bool {
        for text in texts.as_slice() {
            if memmem::find(bytes, text.as_slice()).is_some() {
                return true;
            }
        }
        false
    }
}
