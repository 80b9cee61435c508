// How an answer is told: document 01's number, and in `out` its two details and two more numbers.
ghost use Rattle.crossing.specs.Parts.{Tells};

use answers::Told;
use rules::refusal::Answer;

pub fn tell(a: Answer, third: u64, fourth: u64, out: &mut [u64; 4]) -> u64
    ensures { Tells a third fourth out.new result }
{
    let told = Told::from(a);
    *out = [told.first, told.second, third, fourth];
    told.number
}
