// Texts of tokens of C.
use c_tree::Tok;

#[test]
fn texts_of_tokens(rt: HostRuntime) {
    assert!(rt;
        Tok::WordGoto.text() == b"goto".as_slice()
            && Tok::ShiftLeft.text() == b"<<".as_slice()
            && Tok::Name.text() == b"".as_slice()
    );
}
