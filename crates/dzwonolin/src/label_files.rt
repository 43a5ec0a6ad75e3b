// The keys of one array of a GIFTI label file, for C.
ghost use Rattle.dzwonolin.specs.Gifti.{GiftiFlat};

use flat::tell_one;
use gifti_reader::gifti_keys;

pub fn dz_gifti_keys(text: &[u8], array: u64, keys: &mut [i32], count: &mut [u64]) -> u64
    ensures { GiftiFlat text.now array keys.old count.old result keys.new
        count.new }
{
    let said = gifti_keys(text, array, keys);
    tell_one(count, said.count as u64);
    said.number
}
