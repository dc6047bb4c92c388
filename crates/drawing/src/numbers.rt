// Random numbers.

// The next random number: 48271 times the last, modulo the prime 2^31 - 1. From a number that the prime does not divide it never comes to 0.
pub fn next(x: usize) -> usize {
    x % 2147483647 * 48271 % 2147483647
}

// A random number made into one below a bound, 0 if the bound is 0.
pub fn below(x: usize, bound: usize) -> usize {
    if bound == 0 { 0 } else { x % bound }
}
