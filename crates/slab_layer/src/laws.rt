//! Laws of slab caches. The functions do nothing: their contracts are the laws, and
//! proofs/LawProofs.antt has them for the proofs of the crates above.
ghost use Rattle.slab_layer.specs.Laws.{
  ChunksAreOfCache,
  NeverBoth,
  OutIsOfCache,
  ChunkFits,
  ChunkIsWholeQuanta,
  TakesNoneExactly,
  ReapsNoneExactly,
  ReapedOutIsEmpty,
};

/// What every chunk of a cache is, and which requests it fits.
pub fn chunk_laws()
    ensures chunks { ChunksAreOfCache }
    ensures never_both { NeverBoth }
    ensures out { OutIsOfCache }
    ensures fits { ChunkFits }
    ensures quanta { ChunkIsWholeQuanta }
{}

/// Where `take` and `reap` have nothing to give, and that a cache whose chunks all came back is
/// empty once `reap` gives nothing more.
pub fn move_laws()
    ensures takes_none { TakesNoneExactly }
    ensures reaps_none { ReapsNoneExactly }
    ensures reaped_out { ReapedOutIsEmpty }
{}
