use tables::Refusal;

// The number of the refusal, where there is one.
pub(super) fn number<T: Drop>(r: Result<T, Refusal>) -> Option<u8> {
    r.err().map(|refusal| refusal.number())
}
