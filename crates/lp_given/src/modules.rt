// The modules of the worked rows.

/// The files of the modules, by name.
pub const FILES: [(&str, &str); 40] = [
    (
        "fam.sig",
        "sig fam. kind p type. type ann, bob, cal p. type par, anc p -> p -> o. type any p -> o.",
    ),
    (
        "fam.mod",
        "module fam. par ann bob. par bob cal. anc X Y :- par X Y. anc X Y :- par X Z, anc Z Y. any X.",
    ),
    ("e.sig", "sig e."),
    ("e.mod", "module e."),
    (
        "lists.sig",
        "sig lists. type append list A -> list A -> list A -> o.",
    ),
    (
        "lists.mod",
        "module lists. append nil L L. append (X :: L1) L2 (X :: L3) :- append L1 L2 L3.",
    ),
    (
        "fun.sig",
        "sig fun. kind i type. type a i. type f i -> i -> i.",
    ),
    ("fun.mod", "module fun."),
    ("hyp.sig", "sig hyp. kind i type. type q i -> o."),
    ("hyp.mod", "module hyp."),
    (
        "stlc.sig",
        "sig stlc. kind tm, ty type. type abs (tm -> tm) -> tm. type app tm -> tm -> tm. type arr ty -> ty -> ty. type of tm -> ty -> o.",
    ),
    (
        "stlc.mod",
        "module stlc. of (app M N) B :- of M (arr A B), of N A. of (abs M) (arr A B) :- pi x\\ (of x A => of (M x) B).",
    ),
    (
        "poly.sig",
        "sig poly. type ints list int -> o. type strs list string -> o. type tag list A -> string -> o.",
    ),
    (
        "poly.mod",
        "module poly. ints nil. strs nil. tag L \"ints\" :- ints L. tag L \"strings\" :- strs L.",
    ),
    ("loop.sig", "sig loop. type r, q o."),
    ("loop.mod", "module loop. r :- r. q."),
    ("c.sig", "sig c. kind t type. type get t -> o."),
    ("c.mod", "module c. type k t. get k."),
    ("a.sig", "sig a. kind t type. type geta t -> o."),
    ("a.mod", "module a. accumulate c. geta X :- get X."),
    ("b.sig", "sig b. kind t type. type getb t -> o."),
    ("b.mod", "module b. accumulate c. getb X :- get X."),
    (
        "m.sig",
        "sig m. kind t type. type geta, getb t -> o. type getb t -> o.",
    ),
    ("m.mod", "module m. accumulate a, b."),
    (
        "once.sig",
        "sig once. kind i type. type a, b i. type p, one i -> o.",
    ),
    ("once.mod", "module once. p a. p b. one X :- p X, !."),
    (
        "age.sig",
        "sig age. kind p type. type ann, bob p. type age p -> int -> o. infix age 130.",
    ),
    ("age.mod", "module age. ann age 30. bob age 41."),
    (
        "trial.sig",
        "sig trial. kind tm type. type app tm -> tm -> tm. type abs (tm -> tm) -> tm. type copy tm -> tm -> o.",
    ),
    (
        "trial.mod",
        "module trial. copy (app M N) (app P Q) :- copy M P, copy N Q. copy (abs M) (abs P) :- pi x\\ pi y\\ (copy x y => copy (M x) (P y)).",
    ),
    (
        "rev.sig",
        "sig rev. type append list A -> list A -> list A -> o. type rev list A -> list A -> o.",
    ),
    (
        "rev.mod",
        "module rev. append nil K K. append (X :: L) K (X :: M) :- append L K M. rev nil nil. rev (X :: L) K :- rev L M, append M (X :: nil) K.",
    ),
    (
        "calls.sig",
        "sig calls. kind i type. type a, b i. type f i -> i. type p, s i -> o. type q o -> o.",
    ),
    ("calls.mod", "module calls. p a. p b. q X :- X."),
    (
        "forms.sig",
        "sig forms. kind i type. type a i. type p i -> o. type q, r o. type some A.",
    ),
    (
        "forms.mod",
        "module forms. (q :- q) => r. pi p. (x\\ p x, q :- x = x) a.",
    ),
    (
        "shown.sig",
        "sig shown. kind i type. type f i -> i -> i. type g, up, no i -> i. type a, x1 i. type h (i -> i) -> i. postfix up 10. prefixr no 10.",
    ),
    ("shown.mod", "module shown."),
    ("u.sig", "sig u. kind i type. type a i. type q i -> o."),
    ("u.mod", "module u. q a."),
];
