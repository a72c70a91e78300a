// A file in chunks: the reference's `Chunker`.
#![tactic(auto)]

ghost use Rattle.std.specs.Prelude.{◌≡◌, ◌≤◌, ◌<◌, [], length, get_or};
ghost use Rattle.bounds.specs.Bounds.{max_payload};
ghost use Rattle.chunks.specs.Chunks.{chunks_of};

// How many chunks of chunk_size bytes a file makes; an empty file is one empty chunk.
pub fn chunk_count_unchecked(file: &[u8], chunk_size: usize) -> usize
    requires { 0 < chunk_size }
    ensures { result ≡ length (chunks_of chunk_size file.now) }
{
    file.len().div_ceil(chunk_size).max(1)
}

// The chunk of a number.
pub fn chunk_unchecked(file: &[u8], chunk_size: usize, seq_num: u32) -> &[u8]
    requires chunk_size_nonzero { (0 < chunk_size) × (chunk_size ≤ max_payload) }
    requires seq_num_in_bounds { seq_num < length (chunks_of chunk_size file.now) }
    ensures { result.now ≡ get_or (chunks_of chunk_size file.now) seq_num [] }
{
    let start = seq_num as usize * chunk_size;
    let end = (start + chunk_size).min(file.len());
    &file[start..end]
}
