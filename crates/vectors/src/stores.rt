// What a call leaves in the stores that it is lent.
ghost use Rattle.std.specs.Prelude.{◌-◌, ◌<◌, ◌≡◌, IsTrue, [], length};
ghost use Rattle.vectors.specs.Stores.{MayLeave, MayPut, all_are, front_and, put_as};

use crate::number;
use model::Refusal;

// What every byte of a store holds before a call that these compare.
pub const KEPT: u8 = 0xEE;

// Every byte is b.
pub fn filled(s: &[u8], b: u8) -> bool
    ensures { result ≡ all_are b s.now }
{
    s.iter().all(|x| *x == b)
}

// A store has these bytes in front, and every byte behind them is b.
pub fn holds(store: &[u8], front: &[u8], b: u8) -> bool
    ensures { result ≡ front_and store.now front.now b }
{
    store.starts_with(front) && filled(&store[front.len()..], b)
}

// A call has this number for its answer, puts these bytes at the front of a store, and keeps those behind them.
pub fn puts<F: Fn(&mut [u8]) -> Result<usize, Refusal>>(
    call: &F,
    answer: u8,
    front: &[u8],
    store: &mut [u8],
) -> bool
    requires { F.IsAlwaysCallable call.now }
    ensures { (made : _) × MayLeave F.Fn call.now store.old made store.new × (result ≡ put_as made store.new answer front.now) }
{
    let made = call(store);
    number(made) == answer && made.unwrap_or(0) == front.len() && holds(store, front, KEPT)
}

// The same in a store of N bytes; and where something is made, a store with just its bytes gets it, and one with a byte less gets 7.
pub fn puts_tightly<const N: usize, F: Fn(&mut [u8]) -> Result<usize, Refusal>>(
    call: F,
    answer: u8,
    front: &[u8],
) -> bool
    requires small { N < 1000000 }
    requires callable { F.IsAlwaysCallable call }
    ensures roomy { IsTrue result → MayPut F.Fn call N answer front.now }
    ensures exact { IsTrue result → answer ≡ 0 → MayPut F.Fn call (length front.now) 0 front.now }
    ensures less { IsTrue result → answer ≡ 0 → MayPut F.Fn call (length front.now - 1) 7 [] }
{
    puts(&call, answer, front, &mut [KEPT; N]) && (answer != 0 || fits::<N, F>(&call, front))
}

fn fits<const N: usize, F: Fn(&mut [u8]) -> Result<usize, Refusal>>(call: &F, front: &[u8]) -> bool
    requires small { N < 1000000 }
    requires callable { F.IsAlwaysCallable call.now }
    ensures exact { IsTrue result → MayPut F.Fn call.now (length front.now) 0 front.now }
    ensures less { IsTrue result → MayPut F.Fn call.now (length front.now - 1) 7 [] }
{
    let n = front.len();
    if n == 0 || N < n {
        return false;
    }
    let mut exact = [KEPT; N];
    let mut less = [KEPT; N];
    puts(call, 0, front, &mut exact[..n]) && puts(call, 7, &[], &mut less[..n - 1])
}
