// Maps of bounded size.
ghost use Rattle.std.specs.Prelude.{◌≡◌, [], IfOk};
ghost use Rattle.lru.specs.LruCache.{lru_cache};

use lru::LruCache;
use std::alloc::Global;
use std::hash::Hash;
use std::io;
use std::io::ErrorKind;
use std::num::NonZeroUsize;

/// An empty map that keeps this many entries, those that were asked for last. It keeps one at least.
pub fn bounded<K: Eq + Hash, V>(alloc: Global, most: usize) -> io::Result<LruCache<K, V>>
    ensures { IfOk result (λ map. map ≡ lru_cache [] most) }
{
    let Some(most) = NonZeroUsize::new(most) else {
        return Err(ErrorKind::InvalidInput.into());
    };
    Ok(LruCache::new(alloc, most)?)
}
