// What the benchmarks under bench/ link: the layers, for programs in C and C++. A slice is a pointer and a count.
#![tactic(auto)]

ghost use Rattle.std.specs.Prelude.{◌≡◌, take};
ghost use Rattle.steps.specs.WellFormed.{WellFormed};
ghost use Rattle.records.specs.Repeat.{ChecksRepeats};
ghost use Rattle.bench.specs.Numbered.{PacksBytes, UnpacksRecords};
ghost use Rattle.bench.specs.Sum.{sum_from};

use numbers::Next;

#[unsafe(no_mangle)]
pub extern "C" fn bench_well_formed(text: &[u8]) -> bool
    ensures { WellFormed text.now result }
{
    markup::well_formed(text)
}

// The sum of the numbers of the list from `at` on, wrapped at 64 bits; 0 where one is no number.
#[unsafe(no_mangle)]
pub extern "C" fn bench_sum(text: &[u8], at: usize) -> u64
    ensures { result ≡ sum_from text.now at }
{
    let mut sum: u64 = 0;
    let mut i = at;
    loop {
        match number_lists::next_number(text, i) {
            Next::Number(v, j) => {
                sum = std::num::wrapping_add_u64(sum, v);
                i = j;
            }
            Next::End => {
                return sum;
            }
            Next::Bad => {
                return 0;
            }
        }
    }
}

// The bytes written, or 0.
#[unsafe(no_mangle)]
pub extern "C" fn bench_pack(records: &[u64], sheet: &mut [u8]) -> u64
    ensures { PacksBytes records.now sheet.old result sheet.new }
{
    let said = sheets::pack(records, sheet);
    said.value
}

// The records written, or 0.
#[unsafe(no_mangle)]
pub extern "C" fn bench_unpack(sheet: &[u8], records: &mut [u64]) -> u64
    ensures { UnpacksRecords sheet.now records.old result records.new }
{
    let said = sheets::unpack(sheet, records);
    said.value
}

// 14 where two of the first n numbers of the work space are the same, 13 where there are not so many.
#[unsafe(no_mangle)]
pub extern "C" fn bench_repeats(work: &mut [u64], n: usize) -> u64
    ensures { ChecksRepeats n (take n work.old) work.old result work.new }
{
    repeats::repeats_in(work, n)
}
