//! Worked examples that several crates of tests run.

/// A worked example: a program and a query over it, as texts, and the whole text of the run, which ends by itself.
#[derive(Clone, Copy, Drop)]
pub struct Worked {
    pub program: &'static str,
    pub query: &'static str,
    /// How many transitions it makes until it is done.
    pub transitions: usize,
    pub text: &'static str,
}

/// A rule that fires for the first of two constraints.
pub const GROUND_RULE: Worked = Worked {
    program: ":- chr_constraint p/1, q/1.\nr @ p(1) <=> q(2).\n",
    query: "p(1), p(2).",
    transitions: 7,
    text: "1 activate p(1)#1
2 simplify p(1)#1:1 r 1
3 activate q(2)#2
4 drop q(2)#2:1
5 activate p(2)#3
6 default p(2)#3:1
7 drop p(2)#3:2
end done
stack 0
store 2
q(2)#2
p(2)#3
bindings 0
history 1
r 1
",
};

/// The greatest common divisor of two numbers.
pub const GCD: Worked = Worked {
    program: ":- chr_constraint gcd/1.
gcd1 @ gcd(0) <=> true. gcd2 @ gcd(N) \\ gcd(M) <=> M >= N | L is M-N, gcd(L).
",
    query: "gcd(4), gcd(2).",
    transitions: 18,
    text: "1 activate gcd(4)#1
2 default gcd(4)#1:1
3 default gcd(4)#1:2
4 default gcd(4)#1:3
5 drop gcd(4)#1:4
6 activate gcd(2)#2
7 default gcd(2)#2:1
8 default gcd(2)#2:2
9 propagate gcd(2)#2:3 gcd2 2,1
10 solve _0 is 4-2
11 activate gcd(2)#3
12 default gcd(2)#3:1
13 simplify gcd(2)#3:2 gcd2 2,3
14 solve _1 is 2-2
15 activate gcd(0)#4
16 simplify gcd(0)#4:1 gcd1 4
17 default gcd(2)#2:3
18 drop gcd(2)#2:4
end done
stack 0
store 1
gcd(2)#2
bindings 0
history 3
gcd2 2,1
gcd2 2,3
gcd1 4
",
};

/// Three constraints meet, of which a rule has told the last: after six transitions three searches are worth making ahead.
pub const SPECULATION: Worked = Worked {
    program: ":- chr_constraint act/0, q/1, s/1, out/1.
p1 @ act ==> s(1). r @ act, q(X), s(X) ==> out(X).
",
    query: "q(1), act.",
    transitions: 14,
    text: "1 activate q(1)#1
2 default q(1)#1:1
3 drop q(1)#1:2
4 activate act#2
5 propagate act#2:1 p1 2
6 activate s(1)#3
7 propagate s(1)#3:1 r 2,1,3
8 activate out(1)#4
9 drop out(1)#4:1
10 default s(1)#3:1
11 drop s(1)#3:2
12 default act#2:1
13 default act#2:2
14 drop act#2:3
end done
stack 0
store 4
q(1)#1
act#2
s(1)#3
out(1)#4
bindings 0
history 2
p1 2
r 2,1,3
",
};

/// A propagation whose constraint is removed by what it tells.
pub const PROPAGATE_THEN_SIMPLIFY: Worked = Worked {
    program: ":- chr_constraint p/0, q/0.\na @ p ==> q.\nb @ q, p <=> true.\n",
    query: "p.",
    transitions: 7,
    text: "1 activate p#1
2 propagate p#1:1 a 1
3 activate q#2
4 simplify q#2:1 b 2,1
5 default p#1:1
6 default p#1:2
7 drop p#1:3
end done
stack 0
store 0
bindings 0
history 2
a 1
b 2,1
",
};

/// A binding that wakes both constraints, the one with the lesser identity first.
pub const WAKING_ORDER: Worked = Worked {
    program: ":- chr_constraint p/1, q/1.\n",
    query: "p(X), q(Y), X = a.",
    transitions: 9,
    text: "1 activate p(X)#1
2 drop p(X)#1:1
3 activate q(Y)#2
4 drop q(Y)#2:1
5 solve X = a
6 reactivate p(a)#1
7 drop p(a)#1:1
8 reactivate q(Y)#2
9 drop q(Y)#2:1
end done
stack 0
store 2
p(a)#1
q(Y)#2
bindings 1
X = a
history 0
",
};

/// A list is turned round, and a variable that stands in it twice is bound then.
pub const TURNED_ROUND: Worked = Worked {
    program: ":- chr_constraint turn/2, out/1.
done @ turn([], A) <=> out(A).
next @ turn([X|L], A) <=> turn(L, [X|A]).
",
    query: "turn([X,f(X)],[]), X = 1.",
    transitions: 13,
    text: "1 activate turn([X,f(X)],[])#1
2 default turn([X,f(X)],[])#1:1
3 simplify turn([X,f(X)],[])#1:2 next 1
4 activate turn([f(X)],[X])#2
5 default turn([f(X)],[X])#2:1
6 simplify turn([f(X)],[X])#2:2 next 2
7 activate turn([],[f(X),X])#3
8 simplify turn([],[f(X),X])#3:1 done 3
9 activate out([f(X),X])#4
10 drop out([f(X),X])#4:1
11 solve X = 1
12 reactivate out([f(1),1])#4
13 drop out([f(1),1])#4:1
end done
stack 0
store 1
out([f(1),1])#4
bindings 1
X = 1
history 3
next 1
next 2
done 3
",
};
