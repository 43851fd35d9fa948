// The texts of the table, each with what is particular about it.

// Catalogues.
pub const CATALOGUES: [(&str, &[u8]); 27] = [
    (
        "a cabinet",
        b"pack pack:b module:f\nbatch module:b batch:f rest:f\nrecall batch:b notice:f\n",
    ),
    ("empty", b""),
    ("no newline at the end", b"pack pack:b"),
    ("two spaces", b"pack  pack:b\n"),
    ("an arrow for a colon", b"pack pack:-b\n"),
    ("a mark of two letters", b"pack pack:bb\n"),
    ("another mark", b"pack pack:c\n"),
    ("a name twice", b"pack pack:b\npack pack:f\n"),
    ("an upper-case name", b"Pack pack:b\n"),
    ("a name that begins with a digit", b"4pack pack:b\n"),
    ("bytes above 127", b"pa\xc3\xa9 x:f\n"),
    ("no column", b"pack\n"),
    ("a blank at the end", b"pack x:f\n "),
    ("a name of 16 bytes", b"abcdefghijklmnop x:f\n"),
    ("a name of 17 bytes", b"abcdefghijklmnopq x:f\n"),
    ("a kind of 16 bytes", b"a abcdefghijklmnop:f\n"),
    ("a kind of 17 bytes", b"a abcdefghijklmnopq:f\n"),
    (
        "eight lines",
        b"a x:f\nb x:f\nc x:f\nd x:f\ne x:f\nf x:f\ng x:f\nh x:f\n",
    ),
    (
        "nine lines",
        b"a x:f\nb x:f\nc x:f\nd x:f\ne x:f\nf x:f\ng x:f\nh x:f\ni x:f\n",
    ),
    (
        "nine lines, a name twice",
        b"a x:f\nb x:f\nc x:f\nd x:f\ne x:f\nf x:f\ng x:f\nh x:f\na x:f\n",
    ),
    ("four columns", b"s a:f b:f c:f d:f\n"),
    ("five columns", b"s a:f b:f c:f d:f e:f\n"),
    ("a kind twice", b"s a:f a:f\n"),
    ("three given", b"s a:b b:b c:b d:f\n"),
    ("four given", b"s a:b b:b c:b d:b\n"),
    (
        "sixteen kinds",
        b"s1 a:f b:f c:f d:f\ns2 e:f f:f g:f h:f\ns3 i:f j:f k:f l:f\ns4 m:f n:f o:f p:f\ns5 a:f\n",
    ),
    (
        "seventeen kinds",
        b"s1 a:f b:f c:f d:f\ns2 e:f f:f g:f h:f\ns3 i:f j:f k:f l:f\ns4 m:f n:f o:f p:f\ns5 a:f q:f\n",
    ),
];

// Queries over the catalogue of a cabinet.
pub const QUERIES: [(&str, &[u8]); 48] = [
    (
        "three literals",
        b"q(N) :- recall(B,N), batch(M,B,R), pack(1007,M).",
    ),
    (
        "blanks between tokens and at both ends",
        b"\n q ( N ) :-\nrecall ( B , N ) . \n",
    ),
    ("the head names a source", b"pack(N) :- recall(B,N)."),
    ("empty", b""),
    ("only blanks", b"  \n"),
    ("no dot", b"q(N) :- recall(B,N)"),
    ("a blank behind no dot", b"q(N) :- recall(B,N) "),
    ("more behind the dot", b"q(N) :- recall(B,N). x"),
    ("no variable in the head", b"q() :- recall(B,N)."),
    ("a constant in the head", b"q(7) :- recall(B,N)."),
    ("an upper-case head", b"Q(N) :- recall(B,N)."),
    ("a head of 16 bytes", b"abcdefghijklmnop(N) :- recall(B,N)."),
    (
        "a head of 17 bytes",
        b"abcdefghijklmnopq(N) :- recall(B,N).",
    ),
    ("four head variables", b"q(N,B,N,B) :- recall(B,N)."),
    ("five head variables", b"q(N,B,N,B,N) :- recall(B,N)."),
    ("a colon and a minus apart", b"q(N) : - recall(B,N)."),
    ("no comma between terms", b"q(N) :- recall(B N)."),
    ("a comma before the dot", b"q(N) :- recall(B,N),."),
    ("an unknown source", b"q(N) :- stock(B,N)."),
    (
        "an unknown source of 17 bytes",
        b"q(N) :- abcdefghijklmnopq(B,N).",
    ),
    ("a term too many", b"q(N) :- recall(B,N,R)."),
    (
        "a constant too many and too large",
        b"q(N) :- recall(B,N,4294967296).",
    ),
    (
        "a term too many without its form",
        b"q(N) :- recall(B,N,r).",
    ),
    ("a term too few", b"q(N) :- recall(N)."),
    ("no term", b"q(N) :- recall()."),
    ("a parenthesis behind a comma", b"q(N) :- recall(B,)."),
    (
        "eight literals",
        b"q(N) :- recall(B,N), recall(B,N), recall(B,N), recall(B,N), recall(B,N), recall(B,N), recall(B,N), recall(B,N).",
    ),
    (
        "nine literals",
        b"q(N) :- recall(B,N), recall(B,N), recall(B,N), recall(B,N), recall(B,N), recall(B,N), recall(B,N), recall(B,N), recall(B,N).",
    ),
    (
        "nine literals, the last unknown",
        b"q(N) :- recall(B,N), recall(B,N), recall(B,N), recall(B,N), recall(B,N), recall(B,N), recall(B,N), recall(B,N), stock(B,N).",
    ),
    (
        "sixteen variables",
        b"q(A1) :- batch(A1,B1,C1), batch(A2,B2,C2), batch(A3,B3,C3), batch(A4,B4,C4), batch(A5,B5,C5), pack(D1,A1).",
    ),
    (
        "seventeen variables",
        b"q(A1) :- batch(A1,B1,C1), batch(A2,B2,C2), batch(A3,B3,C3), batch(A4,B4,C4), batch(A5,B5,C5), pack(D1,A6).",
    ),
    (
        "a variable of 16 bytes",
        b"q(Abcdefghijklmnop) :- recall(B,Abcdefghijklmnop).",
    ),
    (
        "a variable of 17 bytes in the head",
        b"q(Abcdefghijklmnopq) :- recall(B,N).",
    ),
    (
        "a variable of 17 bytes",
        b"q(N) :- recall(Abcdefghijklmnopq,N).",
    ),
    (
        "a variable in two kinds",
        b"q(N) :- recall(B,N), pack(N,M).",
    ),
    (
        "a variable in two kinds of one literal",
        b"q(N) :- recall(N,N).",
    ),
    ("a head variable missing", b"q(N,M) :- recall(B,N)."),
    ("two head variables missing", b"q(X,N,Y) :- recall(B,N)."),
    (
        "a head variable missing, with blanks",
        b" q ( N , M ) :- recall(B,N).",
    ),
    ("a head variable missing and no dot", b"q(M) :- recall(B,N)"),
    ("the constant 0", b"q(N) :- recall(0,N)."),
    ("the largest constant", b"q(N) :- recall(4294967295,N)."),
    (
        "one above the largest constant",
        b"q(N) :- recall(4294967296,N).",
    ),
    (
        "a constant of 30 digits",
        b"q(N) :- recall(111111111111111111111111111111,N).",
    ),
    ("zeros in front", b"q(N) :- recall(007,N)."),
    ("two zeros", b"q(N) :- recall(00,N)."),
    ("a digit before a letter", b"q(N) :- recall(7a,N)."),
    ("bytes above 127 in a query", b"q(\xc3) :- recall(B,N)."),
];

// Queries about as long as a text may be: the length up to which blanks stand, and the bytes behind.
pub const PADDED_QUERIES: [(&str, usize, &[u8]); 5] = [
    ("4,096 bytes", 4096, b""),
    ("4,097 bytes", 4097, b""),
    ("4,097 bytes, the last no blank", 4096, b"x"),
    ("a word across 4,096", 4090, b"abcdefghijkl"),
    ("a word behind 4,096", 5000, b"x"),
];
