/// One of two rules.
// An enum of its own and not the kit's, a form of docs/DECISIONS.md: it is a rule of this market where both are, and its definitions name its variants.
#[derive(Clone, Copy)]
pub enum Either<A, B> {
    First(A),
    Second(B),
}
