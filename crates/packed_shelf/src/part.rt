// Copying a part of some bytes out.
ghost use Rattle.std.specs.Prelude.{◌≡◌, ◌++◌, length, take, drop};

// Copies what stands from `from` on to the start of `buffer`, as much as fits; answers how many bytes.
pub fn copy_from(source: &[u8], from: usize, buffer: &mut [u8]) -> usize
    ensures value { result ≡ length (take (length buffer.old) (drop from source.now)) }
    ensures after { buffer.new ≡ take (length buffer.old) (drop from source.now) ++ drop result buffer.old }
{
    if from >= source.len() {
        return 0;
    }
    let count = buffer.len().min(source.len() - from);
    buffer[0..count].copy_from_slice(&source[from..from + count]);
    count
}
